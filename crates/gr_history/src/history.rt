ghost use Rattle.std.specs.Prelude.{◌≡◌, ◌==◌, ◌≤◌, ◌+◌, [], ◌∷◌, ◌++◌, length};
ghost use Rattle.std.specs.Prelude.{IsOk, IfOk, OnOk, OnErr, option_copied, slice_get, count_by};
ghost use Rattle.gr_history.specs.Deeds.{is_of_client, is_discarded, is_repeat};

use crate::{Deed, Entry};
use gr_value::{Copied, Memory};
use std::alloc::Global;
use std::marker::Model;

/// The deeds of one shard of one member, the oldest first. Contracts see the list beside the number
/// of deeds that there is room for. The changes that were discarded or came again are counted.
#[derive(Drop)]
pub struct History {
    deeds: Vec<Entry>,
    discarded: u64,
    repeats: u64,
}

impl Model for History {
    ghost use Rattle.std.specs.Prelude.{◌≡◌, ◌-◌, count_by, vec_len, vec_capacity};
    ghost use Rattle.std.specs.Coded.{codes};
    ghost use Rattle.gr_oql.specs.Question.{question_code};
    ghost use Rattle.gr_history.specs.Deeds.{Deeds, is_discarded, is_repeat};

    ghost Value = { Deeds };

    ghost coded = { Prim.hlevel (codes, question_code) };

    ghost invariant = { λ history. (history.discarded ≡ count_by is_discarded history.deeds.items)
        × (history.repeats ≡ count_by is_repeat history.deeds.items) };

    ghost view = { λ history. record { deeds = history.deeds.items; spare = vec_capacity history.deeds - vec_len history.deeds } };
}

impl History {
    pub fn new(alloc: Global) -> Result<History, Memory>
        ensures { IfOk result (λ history. history.deeds ≡ []) }
    {
        Ok(History {
            deeds: Vec::new(alloc),
            discarded: 0,
            repeats: 0,
        })
    }

    pub fn len(&self) -> u64
        ensures { result ≡ length self.now.deeds }
    {
        self.deeds.len() as u64
    }

    pub fn is_empty(&self) -> bool
        ensures { result ≡ (length self.now.deeds == 0) }
    {
        self.deeds.is_empty()
    }

    /// The deed at a place, counted from 0.
    pub fn get(&self, place: u64) -> Option<&Entry>
        ensures { option_copied result ≡ slice_get self.now.deeds place }
    {
        self.deeds.get(place as usize)
    }

    /// All deeds, the oldest first.
    pub fn as_slice(&self) -> &[Entry]
        ensures { result.now ≡ self.now.deeds }
    {
        self.deeds.as_slice()
    }

    /// All deeds by value, the oldest first. What is large in them is shared.
    pub fn deeds(&self, alloc: Global) -> Result<Vec<Deed>, Memory>
        ensures { IfOk result (λ deeds. deeds.items ≡ self.now.deeds) }
    {
        let mut deeds = Vec::with_capacity(alloc, self.deeds.len())?;
        for deed in &self.deeds {
            deeds.push(deed.deed(alloc)?)?;
        }
        Ok(deeds)
    }

    /// Makes room for so many more deeds.
    #[inline(always)]
    pub fn reserve(&mut self, more: usize) -> Result<(), Memory>
        ensures deeds { self.new.deeds ≡ self.old.deeds }
        ensures room { OnOk result (more ≤ self.new.spare) }
    {
        self.deeds.reserve(more)?;
        Ok(())
    }

    /// Puts a deed last. Where memory is refused the deed is dropped.
    #[inline(always)]
    pub fn push(&mut self, deed: Entry) -> Result<(), Memory>
        ensures ok { OnOk result (self.new.deeds ≡ self.old.deeds ++ deed ∷ []) }
        ensures err { OnErr result (self.new.deeds ≡ self.old.deeds) }
        ensures room { 1 ≤ self.old.spare → IsOk result }
        ensures used { self.old.spare ≤ self.new.spare + 1 }
    {
        let (discarded, repeated) = (deed.is_discarded(), deed.is_repeat());
        self.deeds.reserve(1)?;
        self.deeds.push_reserved(deed);
        self.discarded += u64::from(discarded);
        self.repeats += u64::from(repeated);
        Ok(())
    }

    /// How many deeds are the client's. Takes time in proportion to the history.
    pub fn calls_of(&self, client: u8) -> u64
        ensures { result ≡ count_by (is_of_client client) self.now.deeds }
    {
        self.deeds.iter().filter(|deed| deed.is_of(client)).count() as u64
    }

    /// How many changes were discarded.
    pub fn discarded(&self) -> u64
        ensures { result ≡ count_by is_discarded self.now.deeds }
    {
        self.discarded
    }

    /// How many changes came again.
    pub fn repeats(&self) -> u64
        ensures { result ≡ count_by is_repeat self.now.deeds }
    {
        self.repeats
    }

    /// The same deeds. The copy has no room to spare.
    pub fn copy(&self, alloc: Global) -> Result<History, Memory>
        ensures { IfOk result (λ copy. copy.deeds ≡ self.now.deeds) }
    {
        let mut deeds = Vec::with_capacity(alloc, self.deeds.len())?;
        for deed in &self.deeds {
            deeds.push(deed.copy(alloc)?)?;
        }
        Ok(History {
            deeds,
            discarded: self.discarded,
            repeats: self.repeats,
        })
    }
}
