ghost use Rattle.std.specs.Prelude.{◌≡◌, ◌<◌, Some, None, IfErr, IfOk, OnErr, OnOk, option_copied, replicate};
ghost use Rattle.std.specs.FinMap as finite;
ghost use Rattle.gr_peek.specs.Parts.{place_of, found_in, with_found};

use gr_by_key::ByKey;
use gr_value::{Key, Memory};
use std::alloc::{AllocFailed, Global};
use std::marker::Model;

// So many parts there are. A part of few keys is one node of a tree.
const PARTS: u32 = 64;

/// What stands under keys, in parts by the numbers of the keys: a search looks through one part alone.
#[derive(Drop)]
pub(crate) struct Parts<V> {
    parts: Vec<ByKey<V>>,
}

impl<V> Model for Parts<V> {
    ghost use Rattle.std.specs.Prelude.{◌≡◌, List, length};
    ghost use Rattle.std.specs.FinMap as finite;
    ghost use Rattle.std.specs.Coded.{coded_list, coded_ℕ};
    ghost use Rattle.gr_by_key.specs.Maps.{ByKey};

    ghost Value = { List (ByKey V) };

    ghost coded = { coded_list (finite.code (coded_list coded_ℕ) V.code) };

    ghost view = { λ all. all.parts.items };

    ghost invariant = { λ all. length all.parts.items ≡ 64 };
}

// The place of the part where a key would be.
fn place(key: &Key) -> usize
    ensures place { result ≡ place_of key.now }
    ensures within { result < 64 }
{
    (key.hash() % PARTS) as usize
}

impl<V: Drop> Parts<V> {
    /// Nothing stands anywhere.
    pub(crate) fn new(alloc: Global) -> Result<Parts<V>, Memory>
        ensures { IfOk result (λ all. all ≡ replicate 64 finite.empty) }
    {
        let mut parts = Vec::with_capacity(alloc, PARTS as usize)?;
        for _k in 0..PARTS {
            parts.push_reserved(ByKey::new(alloc));
        }
        Ok(Parts { parts })
    }

    /// Lends what stands under a key.
    pub(crate) fn get(&self, key: &Key) -> Option<&V>
        ensures { option_copied result ≡ found_in self.now key.now }
    {
        self.parts[place(key)].get(key)
    }

    /// Puts something under a key, in the place of what was there, which is dropped.
    pub(crate) fn put(&mut self, key: Key, value: V) -> Result<(), AllocFailed<(Key, V)>>
        ensures ok { OnOk result (self.new ≡ with_found key (Some value) self.old) }
        ensures back { IfErr result (λ refused. refused.value ≡ (key, value)) }
        ensures err { OnErr result (self.new ≡ self.old) }
    {
        let place = place(&key);
        self.parts[place].put(key, value)
    }

    /// Takes out what stands under a key.
    pub(crate) fn take(&mut self, key: &Key)
        ensures { self.new ≡ with_found key.now None self.old }
    {
        let _old = self.parts[place(key)].take(key);
    }
}
