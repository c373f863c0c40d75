ghost use Rattle.std.specs.Prelude.{◌≡◌, ◌≤◌, ◌++◌, decimal, OnOk};
ghost use Rattle.gr_report.specs.Texts.{spaced};
ghost use Rattle.gr_report.specs.Deeds.{has_bit, members_in, list_text};

use crate::put::{put_number, put_text};
use gr_value::{Key, Memory};

fn has_bit(to: u8, bit: u16) -> bool
    requires { 1 ≤ bit }
    ensures { result ≡ has_bit to bit }
{
    u16::from(to) / bit % 2 == 1
}

fn put_next(out: &mut Vec<u8>, mark: &str, member: u8) -> Result<(), Memory>
    ensures { OnOk result (out.new.items ≡ out.old.items ++ mark.now ++ decimal member) }
{
    put_text(out, mark)?;
    put_number(out, u128::from(member))
}

/// Puts the members whose bits are set last, with a comma between each two.
pub fn put_list(out: &mut Vec<u8>, to: u8) -> Result<(), Memory>
    ensures { OnOk result (out.new.items ≡ out.old.items ++ list_text (members_in to)) }
{
    let (mut mark, mut bit) = ("", 1u16);
    for below in 0..8u8 {
        if has_bit(to, bit) {
            put_next(out, mark, below + 1)?;
            mark = ",";
        }
        bit *= 2;
    }
    if mark.is_empty() {
        put_text(out, "-")?;
    }
    Ok(())
}

/// Puts keys last, with a space in front of each.
pub fn put_keys(out: &mut Vec<u8>, keys: &[Key]) -> Result<(), Memory>
    ensures { OnOk result (out.new.items ≡ out.old.items ++ spaced keys.now) }
{
    for key in keys {
        put_text(out, " ")?;
        out.extend_from_slice(key.bytes())?;
    }
    Ok(())
}
