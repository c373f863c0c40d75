ghost use Rattle.std.specs.Prelude.{◌≡◌, ℕ, List, Option, IfOk, IfSome, None, map, option_map, slice_get, string_bytes};
ghost use Rattle.std.specs.Io.{WritesAtMost};
ghost use Rattle.gr_top.specs.Arguments.{AreWords, Gives, IsWordAt, IsWordOf};

use gr_value::Memory;
use std::alloc::Global;
use std::env::{Env, FillError};

/// The room for a word's bytes at first, which doubles while it doesn't suffice.
const ROOM: usize = 256;

/// What the program is started with: its own name, and behind it the words.
pub trait Arguments {
    // All of them, where they are told.
    ghost list: { Self → Option (List (List ℕ)) };

    /// Copies the argument at a place, counted from 0, to the start of `buf`, and says how long it is.
    fn argument(&self, place: usize, buf: &mut [u8]) -> Result<usize, FillError>
        ensures bound { WritesAtMost result buf.new }
        ensures gives { IfSome (list self.now) (λ all. Gives (slice_get all place) buf.new result) };
}

/// The arguments of a process, of which std tells nothing.
#[derive(Drop)]
pub struct StdArguments<'a, E> {
    env: &'a E,
}

impl<'a, E: Env> StdArguments<'a, E> {
    pub fn new(env: &'a E) -> StdArguments<'a, E> {
        StdArguments { env }
    }
}

impl<'a, E: Env> Arguments for StdArguments<'a, E> {
    ghost list = { λ _. None };

    fn argument(&self, place: usize, buf: &mut [u8]) -> Result<usize, FillError> {
        self.env.arg(place, buf)
    }
}

fn text_of(bytes: &[u8]) -> &str
    ensures { IsWordOf bytes.now result.now }
{
    match str::from_utf8(bytes) {
        Ok(text) => text,
        Err(_) => "",
    }
}

// The word at a place by way of a buffer, `None` behind the last, or why it doesn't fit there.
fn word_in<A: Arguments>(
    alloc: Global,
    arguments: &A,
    place: usize,
    buf: &mut [u8],
) -> Result<Result<Option<String>, FillError>, Memory>
    ensures { IfOk result (λ fitted. IfOk fitted (λ word.
        IsWordAt (A.list arguments.now) place (option_map (λ text. string_bytes text) word))) }
{
    match arguments.argument(place, buf) {
        Ok(count) => Ok(Ok(Some(String::from_str(alloc, text_of(&buf[..count]))?))),
        Err(FillError::NotPresent) => Ok(Ok(None)),
        Err(FillError::TooLong) => Ok(Err(FillError::TooLong)),
    }
}

fn word_at<A: Arguments>(
    alloc: Global,
    arguments: &A,
    place: usize,
) -> Result<Option<String>, Memory>
    ensures { IfOk result (λ word. IsWordAt (A.list arguments.now) place (option_map (λ text. string_bytes text) word)) }
{
    let mut room = ROOM;
    for _ in 0..usize::BITS {
        let mut bytes = vec![in alloc; 0; room]?;
        if let Ok(word) = word_in(alloc, arguments, place, &mut bytes)? {
            return Ok(word);
        }
        room = room.saturating_add(room);
    }
    Err(Memory)
}

/// The words that the program was given, without its name. An argument that isn't text is given as an
/// empty word, which no mode has, so that it is told at its own place.
pub fn given_words<A: Arguments>(alloc: Global, arguments: &A) -> Result<Vec<String>, Memory>
    ensures { IfOk result (λ words. IfSome (A.list arguments.now) (λ all.
        AreWords all (map (λ word. string_bytes word) words.items))) }
{
    let mut words = Vec::new(alloc);
    for place in 1..usize::MAX {
        match word_at(alloc, arguments, place)? {
            Some(word) => words.push(word)?,
            None => return Ok(words),
        }
    }
    Err(Memory)
}
