ghost use Rattle.std.specs.Prelude.{◌≡◌, IfOk, OnOk, OnErr, cond, true, false, option_copied};
ghost use Rattle.std.specs.BTreeSet.{contains};
ghost use Rattle.std.specs.List.Sorted.{IsStrictlySortedBy};
ghost use Rattle.std.specs.declared.cmp.Ordering.TheVariants.{Less};
ghost use Rattle.gr_index.specs.declared.cell.Cell.{Cell};
ghost use Rattle.gr_oql.specs.Events.{Present};
ghost use Rattle.gr_index.specs.Cells.{cell_cmp, is_cell, cell_of, left_behind, keys_between};
ghost use Rattle.gr_index.specs.Index.{scalar_in, nowhere, turned_map, IsIndexOf, AreKeysWith};

use crate::cell::{Cell, Place};
use gr_oql::Turned;
use gr_value::{Copied, Key, KeyList, Memory, Scalar, Text, Value};
use std::alloc::Global;
use std::collections::BTreeSet;
use std::marker::Model;

/// The keys of a map by the scalar of one field of their values.
#[derive(Drop)]
pub struct FieldIndex {
    field: Text,
    cells: BTreeSet<Cell>,
}

impl Model for FieldIndex {
    ghost use Rattle.gr_index.specs.Index.{Index};

    ghost Value = { Index };

    ghost view = { λ index. record { field = index.field; cells = index.cells.keys } };
}

fn scalar_in<'a>(field: &str, value: Option<&'a Value>) -> Option<&'a Scalar>
    ensures { option_copied result ≡ scalar_in field.now (option_copied value.entry) }
{
    match value {
        None => None,
        Some(value) => value.field(field),
    }
}

// The old scalar, unless it is the new one too.
fn left_behind<'a>(old: Option<&'a Scalar>, new: Option<&Scalar>) -> Option<&'a Scalar>
    ensures { option_copied result ≡ left_behind (option_copied old.entry) (option_copied new.entry) }
{
    match (old, new) {
        (Some(one), Some(two)) => { if one == two { None } else { Some(one) } }
        _ => old,
    }
}

fn cell_of(alloc: Global, key: &Key, scalar: Option<&Scalar>) -> Result<Option<Cell>, Memory>
    ensures { IfOk result (λ cell. cell ≡ cell_of key.now (option_copied scalar.entry)) }
{
    match scalar {
        None => Ok(None),
        Some(scalar) => Ok(Some(Cell::at(alloc, scalar, key)?)),
    }
}

fn add(cells: &mut BTreeSet<Cell>, cell: Option<Cell>) -> Result<(), Memory>
    ensures ok { OnOk result ((q : Cell) → contains cell_cmp cells.new q ≡ cond (is_cell cell q) true (contains cell_cmp cells.old q)) }
    ensures err { OnErr result (cells.new.keys ≡ cells.old.keys) }
{
    match cell {
        None => Ok(()),
        Some(cell) => {
            cells.insert(cell)?;
            Ok(())
        }
    }
}

fn take(cells: &mut BTreeSet<Cell>, cell: Option<Cell>)
    ensures { (q : Cell) → contains cell_cmp cells.new q ≡ cond (is_cell cell q) false (contains cell_cmp cells.old q) }
{
    if let Some(cell) = cell {
        cells.remove(&cell);
    }
}

fn keys_between(
    alloc: Global,
    cells: &BTreeSet<Cell>,
    from: Cell,
    to: Cell,
) -> Result<KeyList, Memory>
    requires { cell_cmp from to ≡ Less }
    ensures keys { IfOk result (λ keys. keys ≡ keys_between from to cells.now.keys) }
    ensures ordered { IfOk result (λ _. IsStrictlySortedBy cell_cmp cells.now.keys) }
{
    let mut keys = KeyList::new(alloc)?;
    for cell in cells.range(from..to) {
        if let Place::At(key) = &cell.place {
            keys.push(key.copy(alloc)?)?;
        }
    }
    Ok(keys)
}

impl FieldIndex {
    /// The index on this field of the map with no entries.
    pub fn new(alloc: Global, field: &str) -> Result<FieldIndex, Memory>
        ensures field { IfOk result (λ index. index.field ≡ field.now) }
        ensures index { IfOk result (λ index. IsIndexOf nowhere index) }
    {
        Ok(FieldIndex {
            field: Text::new(alloc, field)?,
            cells: BTreeSet::new(alloc),
        })
    }

    /// Follows one entry of the map.
    pub fn turn(&mut self, alloc: Global, turned: &Turned) -> Result<(), Memory>
        ensures field { self.new.field ≡ self.old.field }
        ensures index { OnOk result ((map : Present) → IsIndexOf map self.old → map turned.now.key ≡ turned.now.old → IsIndexOf (turned_map turned.now map) self.new) }
        ensures err { OnErr result (self.new ≡ self.old) }
    {
        let old = scalar_in(self.field.as_str(), turned.old.as_ref());
        let new = scalar_in(self.field.as_str(), turned.new.as_ref());
        let gone = cell_of(alloc, &turned.key, left_behind(old, new))?;
        let come = cell_of(alloc, &turned.key, new)?;
        add(&mut self.cells, come)?;
        take(&mut self.cells, gone);
        Ok(())
    }

    /// The keys whose value has the field with this scalar, in order.
    pub fn equal(&self, alloc: Global, scalar: &Scalar) -> Result<KeyList, Memory>
        ensures { IfOk result (λ keys. (map : Present) → IsIndexOf map self.now → AreKeysWith self.now.field scalar.now map keys) }
    {
        let from = Cell::placed(alloc, scalar, Place::Before)?;
        let to = Cell::placed(alloc, scalar, Place::Behind)?;
        Ok(keys_between(alloc, &self.cells, from, to)?)
    }
}
