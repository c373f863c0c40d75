ghost use Rattle.std.specs.Prelude.{◌≡◌, IfErr, IfOk, OnErr, OnOk, option_copied};
ghost use Rattle.std.specs.FinMap as finite;
ghost use Rattle.gr_by_key.specs.Maps.{names_in};

use gr_value::{Copied, Key, KeyList, Memory};
use std::alloc::{AllocFailed, Global};
use std::collections::BTreeMap;
use std::collections::btree_map::Iter;
use std::marker::Model;

/// What stands under keys, which contracts see as a finite map from the bytes of the keys.
#[derive(Drop)]
pub struct ByKey<V> {
    map: BTreeMap<Key, V>,
}

impl<V> Model for ByKey<V> {
    ghost use Rattle.std.specs.Ordering.{nat_cmp};
    ghost use Rattle.std.specs.Cmp.Lexicographic.{slice_cmp};
    ghost use Rattle.std.specs.FinMap as finite;
    ghost use Rattle.std.specs.Coded.{coded_list, coded_ℕ};

    ghost Value = { finite.FinMap (slice_cmp nat_cmp) V };

    ghost coded = { finite.code (coded_list coded_ℕ) V.code };

    ghost view = { λ one. finite.from_entries one.map.entries };
}

impl<V: Drop> ByKey<V> {
    /// Takes no memory.
    pub fn new(alloc: Global) -> ByKey<V>
        ensures { result ≡ finite.empty }
    {
        ByKey {
            map: BTreeMap::new(alloc),
        }
    }

    /// Lends what stands under a key.
    pub fn get(&self, key: &Key) -> Option<&V>
        ensures { option_copied result ≡ finite.get self.now key.now }
    {
        self.map.get(key)
    }

    /// Puts something under a key, in the place of what was there, which is dropped. By `?` the refusal of
    /// memory becomes a `Memory`, and what came back is dropped.
    pub fn put(&mut self, key: Key, value: V) -> Result<(), AllocFailed<(Key, V)>>
        ensures ok { OnOk result (self.new ≡ finite.insert self.old key value) }
        ensures back { IfErr result (λ refused. refused.value ≡ (key, value)) }
        ensures err { OnErr result (self.new ≡ self.old) }
    {
        let _old = self.map.insert(key, value)?;
        Ok(())
    }

    /// Takes out what stands under a key. The key that stood there is dropped.
    pub fn take(&mut self, key: &Key) -> Option<V>
        ensures value { result ≡ finite.get self.old key.now }
        ensures rest { self.new ≡ finite.remove self.old key.now }
    {
        self.map.remove(key)
    }

    /// Copies of the keys, in order.
    pub fn keys(&self, alloc: Global) -> Result<KeyList, Memory>
        ensures { IfOk result (λ keys. keys ≡ names_in self.now) }
    {
        let mut keys = KeyList::new(alloc)?;
        for key in self.map.keys() {
            keys.push(key.copy(alloc)?)?;
        }
        Ok(keys)
    }

    /// The keys in order, each with what stands under it. Nothing is copied.
    pub fn iter(&self) -> Iter<'_, Key, V>
        ensures { result ≡ finite.entries self.now }
    {
        self.map.iter()
    }
}
