ghost use Rattle.std.specs.Prelude.{◌≡◌, ◌<◌, All, IsTrue, IfOk, IfSome, string_bytes};
ghost use Rattle.std.specs.Str.{is_utf8};

use crate::near::{Held, Near};
use crate::{Copied, Memory};
use std::alloc::Global;
use std::marker::Model;
use std::sync::Arc;

// The bytes are looked at side by side since none of them ends the loop.
#[tactic(auto, using(crate::proofs::Utf8::ascii_more, crate::proofs::Utf8::ascii_all))]
fn is_ascii(bytes: &[u8]) -> bool
    ensures { IsTrue result → All (λ byte. byte < 128) bytes.now }
{
    let mut ascii = true;
    for byte in bytes {
        ascii &= *byte < 128;
    }
    ascii
}

// Most texts are ASCII, which is seen faster.
#[tactic(auto, using(crate::proofs::Utf8::ascii_is, crate::proofs::Utf8::tested_is))]
fn is_text(bytes: &[u8]) -> bool
    ensures { IsTrue result → IsTrue (is_utf8 bytes.now) }
{
    if is_ascii(bytes) {
        return true;
    }
    match str::from_utf8(bytes) {
        Ok(_) => true,
        Err(_) => false,
    }
}

/// A text, which contracts see as its bytes. Up to 14 bytes stand in the text itself, and of more
/// the copies share one place.
#[derive(Drop)]
pub struct Text {
    held: Held<Vec<u8>>,
}

impl Model for Text {
    ghost use Rattle.std.specs.Prelude.{IsTrue, List, ℕ};
    ghost use Rattle.std.specs.Str.{is_utf8};
    ghost use Rattle.gr_value.specs.Held.{held_bytes};

    ghost Value = { List ℕ };

    ghost view = { λ text. held_bytes (λ far. far.items) text.held };

    ghost invariant = { λ text. IsTrue (is_utf8 (held_bytes (λ far. far.items) text.held)) };
}

impl Text {
    pub fn new(alloc: Global, text: &str) -> Result<Text, Memory>
        ensures text { IfOk result (λ made. made ≡ text.now) }
        ensures utf8 { IfOk result (λ made. IsTrue (is_utf8 made)) }
    {
        Text::of_utf8(alloc, text.as_bytes())
    }

    fn of_utf8(alloc: Global, bytes: &[u8]) -> Result<Text, Memory>
        requires { IsTrue (is_utf8 bytes.now) }
        ensures text { IfOk result (λ made. made ≡ bytes.now) }
        ensures utf8 { IfOk result (λ made. IsTrue (is_utf8 made)) }
    {
        match Near::of_bytes(bytes) {
            Some(near) => Ok(Text {
                held: Held::Near(near),
            }),
            None => Text::far(alloc, Vec::from_slice(alloc, bytes)?),
        }
    }

    /// The text of a few bytes of ASCII, which takes no memory.
    #[inline(always)]
    #[tactic(auto, using(crate::proofs::Utf8::ascii_is))]
    pub(crate) fn of_few(bytes: &[u8]) -> Option<Text>
        ensures { IfSome result (λ text. (text ≡ bytes.now) × IsTrue (is_utf8 text)) }
    {
        if !is_ascii(bytes) {
            return None;
        }
        let near = Near::of_bytes(bytes)?;
        Some(Text {
            held: Held::Near(near),
        })
    }

    /// The text that these bytes are, if they are UTF-8.
    pub(crate) fn of_bytes(alloc: Global, bytes: &[u8]) -> Result<Option<Text>, Memory>
        ensures { IfOk result (λ found. IfSome found (λ text. (text ≡ bytes.now) × IsTrue (is_utf8 text))) }
    {
        if is_text(bytes) {
            Ok(Some(Text::of_utf8(alloc, bytes)?))
        } else {
            Ok(None)
        }
    }

    pub(crate) fn of_string(alloc: Global, text: String) -> Result<Text, Memory>
        ensures text { IfOk result (λ made. made ≡ string_bytes text) }
        ensures utf8 { IfOk result (λ made. IsTrue (is_utf8 made)) }
    {
        match Near::of_bytes(text.as_bytes()) {
            Some(near) => Ok(Text {
                held: Held::Near(near),
            }),
            None => Text::far(alloc, text.into_bytes()),
        }
    }

    fn far(alloc: Global, bytes: Vec<u8>) -> Result<Text, Memory>
        requires { IsTrue (is_utf8 bytes.items) }
        ensures text { IfOk result (λ made. made ≡ bytes.items) }
        ensures utf8 { IfOk result (λ made. IsTrue (is_utf8 made)) }
    {
        let shared = Arc::new(alloc, bytes)?;
        Ok(Text {
            held: Held::Far(shared),
        })
    }

    /// Its bytes, without the look at whether they are UTF-8 that `as_str` takes.
    pub fn bytes(&self) -> &[u8]
        ensures bytes { result.now ≡ self.now }
        ensures utf8 { IsTrue (is_utf8 self.now) }
    {
        match &self.held {
            Held::Near(near) => near.as_slice(),
            Held::Far(shared) => shared.as_slice(),
        }
    }

    pub fn as_str(&self) -> &str
        ensures { result.now ≡ self.now }
    {
        str::from_utf8(self.bytes()).unwrap()
    }
}

impl PartialEq for Text {
    ghost use Rattle.std.specs.Prelude.{bytes_eq};
    ghost use Rattle.std.proofs.Common.{rules};
    ghost use Rattle.std.specs.Cmp.Rules.{comparing};

    ghost eq = { bytes_eq };

    ghost laws = { Prim.search (comparing, rules) };

    #[inline]
    fn eq(&self, other: &Text) -> bool {
        match (&self.held, &other.held) {
            (Held::Near(one), Held::Near(two)) => one.same(two),
            _ => self.bytes() == other.bytes(),
        }
    }
}

impl Eq for Text {
    ghost use Rattle.std.proofs.Common.{rules};
    ghost use Rattle.std.specs.Cmp.Rules.{comparing};

    ghost laws = { Prim.search (comparing, rules) };
}

impl Copied for Text {
    fn copy(&self, _alloc: Global) -> Result<Text, Memory> {
        let held = match &self.held {
            Held::Near(near) => Held::Near(near.copy()),
            Held::Far(shared) => Held::Far(Arc::try_clone(shared)?),
        };
        Ok(Text { held })
    }
}
