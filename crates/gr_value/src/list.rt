ghost use Rattle.std.specs.Prelude.{◌≡◌, ◌==◌, [], ◌∷◌, ◌++◌, length, slice_get, IfOk, IfNone, OnOk, OnErr, option_copied, reverse};
ghost use Rattle.std.specs.Option.{option_to_list};

use crate::{Copied, Memory};
use std::alloc::Global;
use std::marker::Model;

/// A list of items, which contracts see as that list.
#[derive(Drop)]
pub struct ItemList<T> {
    entries: Vec<T>,
}

impl<T> Model for ItemList<T> {
    ghost use Rattle.std.specs.Prelude.{List};

    ghost Value = { List T };

    ghost view = { λ list. list.entries.items };
}

impl<T> ItemList<T> {
    /// The list with no items.
    pub fn new(alloc: Global) -> Result<ItemList<T>, Memory>
        ensures { IfOk result (λ list. list ≡ []) }
    {
        Ok(ItemList {
            entries: Vec::new(alloc),
        })
    }

    /// The list with no items, and room for so many.
    pub(crate) fn with_room(alloc: Global, items: usize) -> Result<ItemList<T>, Memory>
        ensures { IfOk result (λ list. list ≡ []) }
    {
        Ok(ItemList {
            entries: Vec::with_capacity(alloc, items)?,
        })
    }

    /// The items of a vector. A caller that must put so many items behind calls that can't be undone
    /// makes a vector with room for them first, where `push_reserved` takes no memory.
    pub fn from_vec(entries: Vec<T>) -> ItemList<T>
        ensures { result ≡ entries.items }
    {
        ItemList { entries }
    }

    pub fn into_vec(self) -> Vec<T>
        ensures { result.items ≡ self }
    {
        self.entries
    }

    /// Puts one item last. Where memory is refused the item is dropped.
    #[inline(always)]
    pub fn push(&mut self, item: T) -> Result<(), Memory>
    where
        T: Drop,
        ensures ok { OnOk result (self.new ≡ self.old ++ item ∷ []) }
        ensures err { OnErr result (self.new ≡ self.old) }
    {
        self.entries.push(item)?;
        Ok(())
    }

    pub fn len(&self) -> usize
        ensures { result ≡ length self.now }
    {
        self.entries.len()
    }

    pub fn is_empty(&self) -> bool
        ensures { result ≡ (length self.now == 0) }
    {
        self.entries.is_empty()
    }

    /// The item at a place, counted from 0.
    pub fn get(&self, place: usize) -> Option<&T>
        ensures { option_copied result ≡ slice_get self.now place }
    {
        self.entries.get(place)
    }

    /// All items, in order.
    pub fn as_slice(&self) -> &[T]
        ensures { result.now ≡ self.now }
    {
        self.entries.as_slice()
    }

    /// Puts the items in the other order.
    pub fn reverse(&mut self)
        ensures { self.new ≡ reverse self.old }
    {
        self.entries.reverse();
    }

    /// Takes the last item out.
    pub fn pop(&mut self) -> Option<T>
        ensures item { self.old ≡ self.new ++ option_to_list result }
        ensures none { IfNone result (self.old ≡ []) }
    {
        self.entries.pop()
    }
}

impl<T: Copied + Drop> Copied for ItemList<T> {
    fn copy(&self, alloc: Global) -> Result<ItemList<T>, Memory> {
        let mut copies = ItemList::with_room(alloc, self.entries.len())?;
        for item in &self.entries {
            copies.push(item.copy(alloc)?)?;
        }
        Ok(copies)
    }
}
