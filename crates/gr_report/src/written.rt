ghost use Rattle.std.specs.Prelude.{◌≡◌, ◌≤◌, ◌++◌, ℕ, List, OnOk, flat_map};
ghost use Rattle.gr_report.specs.Texts.{texts_from};

use gr_value::Memory;
use std::alloc::Global;

/// What has a text.
pub trait Written {
    // Its text.
    ghost text: { Self → List ℕ };

    /// Puts its text last.
    fn put(&self, alloc: Global, out: &mut Vec<u8>) -> Result<(), Memory>
        ensures { OnOk result (out.new.items ≡ out.old.items ++ text self.now) };
}

/// Puts the texts of all last, in order.
pub fn put_all<T: Written>(alloc: Global, out: &mut Vec<u8>, items: &[T]) -> Result<(), Memory>
    ensures { OnOk result (out.new.items ≡ out.old.items ++ flat_map T.text items.now) }
{
    for item in items {
        item.put(alloc, out)?;
    }
    Ok(())
}

/// What has a text that names its owner and its number among the owner's.
pub trait Numbered {
    // Its text, of this owner and number.
    ghost text: { ℕ → ℕ → Self → List ℕ };

    /// Puts its text last.
    fn put(&self, alloc: Global, out: &mut Vec<u8>, owner: u8, number: u64) -> Result<(), Memory>
        ensures { OnOk result (out.new.items ≡ out.old.items ++ text owner number self.now) };
}

/// Puts the texts of all that an owner has last, in order, numbered from this number.
pub fn put_numbered<T: Numbered>(
    alloc: Global,
    out: &mut Vec<u8>,
    owner: u8,
    first: u64,
    items: &[T],
) -> Result<(), Memory>
    requires { first ≤ 1 }
    ensures { OnOk result (out.new.items ≡ out.old.items ++ texts_from (T.text owner) first items.now) }
{
    for (place, item) in items.iter().enumerate() {
        item.put(alloc, out, owner, place as u64 + first)?;
    }
    Ok(())
}
