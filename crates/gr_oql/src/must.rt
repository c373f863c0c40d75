//! What a value must have where a query matches it.

ghost use Rattle.std.specs.Prelude.{◌≡◌, [], ◌∷◌, ◌++◌, OnOk, IfOk};
ghost use Rattle.gr_oql.specs.Must.{sides_must, test_must, tree_must, condition_must};
ghost use Rattle.gr_oql.specs.Reader.Asking.{asked};
ghost use Rattle.gr_oql.specs.View.{tree_of};

use crate::clauses::Clauses;
use crate::condition::{Condition, Operand, Relation, Test};
use gr_value::{Copied, ItemList, Memory, Scalar, Text};
use std::alloc::Global;

/// A field, and the scalar that it must be.
#[derive(Drop)]
pub struct Must {
    pub field: Text,
    pub equal: Scalar,
}

pub type MustList = ItemList<Must>;

impl Must {
    fn of(alloc: Global, field: &Text, equal: &Scalar) -> Result<Must, Memory>
        ensures { IfOk result (λ must. must ≡ record { field = field.now; equal = equal.now }) }
    {
        Ok(Must {
            field: field.copy(alloc)?,
            equal: equal.copy(alloc)?,
        })
    }
}

impl Copied for Must {
    fn copy(&self, alloc: Global) -> Result<Must, Memory> {
        Must::of(alloc, &self.field, &self.equal)
    }
}

// Adds what two operands that are to be equal say of a field.
fn add_sides(
    alloc: Global,
    left: &Operand,
    right: &Operand,
    found: &mut MustList,
) -> Result<(), Memory>
    ensures { OnOk result (found.new ≡ found.old ++ sides_must left.now right.now) }
{
    match (left, right) {
        (Operand::Field(name), Operand::Literal(scalar)) => {
            found.push(Must::of(alloc, name, scalar)?)
        }
        (Operand::Literal(scalar), Operand::Field(name)) => {
            found.push(Must::of(alloc, name, scalar)?)
        }
        _ => Ok(()),
    }
}

impl Test {
    fn add_must(&self, alloc: Global, found: &mut MustList) -> Result<(), Memory>
        ensures { OnOk result (found.new ≡ found.old ++ test_must self.now) }
    {
        match self {
            Test::Compare {
                left,
                relation: Relation::Equal,
                right,
            } => add_sides(alloc, left, right, found),
            _ => Ok(()),
        }
    }
}

impl Condition {
    fn add_must(&self, alloc: Global, found: &mut MustList) -> Result<(), Memory>
        ensures { OnOk result (found.new ≡ found.old ++ tree_must (tree_of self.now)) }
    {
        match self {
            Condition::Any(parts) => {
                let is_alone = parts.len() == 1;
                if is_alone {
                    parts[0].add_must(alloc, found)
                } else {
                    Ok(())
                }
            }
            Condition::All(parts) => {
                for part in parts {
                    part.add_must(alloc, found)?;
                }
                Ok(())
            }
            Condition::Not(_) => Ok(()),
            Condition::Test(test) => test.add_must(alloc, found),
        }
    }
}

/// What a value must have where the clauses ask for it.
pub(crate) fn must_of(alloc: Global, clauses: &Clauses) -> Result<MustList, Memory>
    ensures { IfOk result (λ found. found ≡ condition_must (asked clauses.now).condition) }
{
    let mut found = ItemList::new(alloc)?;
    match &clauses.condition {
        None => Ok(found),
        Some(condition) => {
            condition.add_must(alloc, &mut found)?;
            Ok(found)
        }
    }
}
