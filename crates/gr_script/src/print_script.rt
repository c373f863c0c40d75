ghost use Rattle.std.specs.Prelude.{◌≡◌, ◌≤◌, ◌++◌, ◌∷◌, [], codes, List, All, false, IfOk, OnOk, Ok};
ghost use Rattle.std.specs.Fmt.{decimal};
ghost use Rattle.gr_script.specs.declared.line.Line.{Line as ALine};
ghost use Rattle.gr_script.specs.Cuts.{line_count};
ghost use Rattle.gr_script.specs.Forms.{word};
ghost use Rattle.gr_script.specs.Printed.{stated_sayings, client_sayings, heading_sayings, script_text, IsLineKept};
ghost use Rattle.gr_script.specs.Printing.{text_of_sayings};
ghost use Rattle.gr_script.specs.Rules.{Heading as AHeading, IsScript};
ghost use Rattle.gr_script.specs.Said.{script_of};
ghost use Rattle.gr_script.specs.Scripts.{heading_of};
ghost use Rattle.gr_script.specs.Limits.{most_lines};

use crate::Script;
use crate::forms::LineKind;
use crate::print_line::{put_field, put_lines, put_number_field, put_other};
use gr_value::{Key, Memory};
use std::alloc::Global;

// A line of the heading with one number.
fn put_size(kind: LineKind, number: u64, out: &mut Vec<u8>) -> Result<(), Memory>
    ensures { OnOk result (out.new.items ≡ out.old.items ++ (word kind ++ (codes " " ++ (decimal number ++ 0x0A ∷ [])))) }
{
    put_other(kind, number, out)?;
    out.push(b'\n')?;
    Ok(())
}

fn put_region(region: &Key, out: &mut Vec<u8>) -> Result<(), Memory>
    ensures { OnOk result (out.new.items ≡ out.old.items ++ (codes "georep 1\nregion " ++ (region.now ++ 0x0A ∷ []))) }
{
    out.extend_from_slice(b"georep 1\nregion")?;
    put_field(region.bytes(), out)?;
    out.push(b'\n')?;
    Ok(())
}

fn put_members(members: u8, founders: u8, out: &mut Vec<u8>) -> Result<(), Memory>
    ensures { OnOk result (out.new.items
        ≡ out.old.items ++ (codes "members " ++ (decimal members ++ (codes " " ++ (decimal founders ++ 0x0A ∷ []))))) }
{
    put_other(LineKind::Members, u64::from(members), out)?;
    put_number_field(u64::from(founders), out)?;
    out.push(b'\n')?;
    Ok(())
}

// The seven lines in front of the clients'.
fn put_stated(script: &Script, out: &mut Vec<u8>) -> Result<(), Memory>
    ensures { OnOk result (out.new.items ≡ out.old.items ++ text_of_sayings (stated_sayings (heading_of script.now))) }
{
    put_region(&script.region, out)?;
    put_members(script.members, script.founders, out)?;
    put_size(LineKind::Shards, u64::from(script.shards), out)?;
    put_size(LineKind::Inbox, u64::from(script.inbox), out)?;
    put_size(LineKind::Trouble, u64::from(script.trouble), out)?;
    put_size(LineKind::Floor, script.floor, out)?;
    Ok(())
}

// Client n is at the n-th of these members.
fn put_client(client: u64, member: u8, out: &mut Vec<u8>) -> Result<(), Memory>
    ensures { OnOk result (out.new.items
        ≡ out.old.items ++ (codes "client " ++ (decimal client ++ (codes " at " ++ (decimal member ++ 0x0A ∷ []))))) }
{
    put_other(LineKind::Client, client, out)?;
    put_field(b"at", out)?;
    put_number_field(u64::from(member), out)?;
    out.push(b'\n')?;
    Ok(())
}

fn put_clients(members: &[u8], out: &mut Vec<u8>) -> Result<(), Memory>
    ensures { OnOk result (out.new.items ≡ out.old.items ++ text_of_sayings (client_sayings 1 members.now)) }
{
    let mut client = 1u64;
    for member in members {
        put_client(client, *member, out)?;
        client += 1;
    }
    Ok(())
}

/// The text of a script is read as that script in the form of replay, if it has no more lines than
/// a script may have.
pub fn scripts_read_back()
    ensures { (h : AHeading) (lines : List ALine) → IsScript h lines → All IsLineKept lines
        → line_count (script_text h lines) ≤ most_lines → script_of false (script_text h lines) ≡ Ok (h, lines) }
{}

/// All seven lines of a script's heading, and the lines of its clients.
pub(crate) fn put_heading(script: &Script, out: &mut Vec<u8>) -> Result<(), Memory>
    ensures { OnOk result (out.new.items ≡ out.old.items ++ text_of_sayings (heading_sayings (heading_of script.now))) }
{
    put_stated(script, out)?;
    put_clients(script.clients.as_slice(), out)?;
    Ok(())
}

/// The script's text: its heading, and the other lines.
pub fn print(alloc: Global, script: &Script) -> Result<Vec<u8>, Memory>
    ensures text { IfOk result (λ text. text.items ≡ script_text (heading_of script.now) script.now.lines) }
    // In the form of replay it is read as this script, if it has no more lines than a script may have.
    ensures read { IfOk result (λ text. line_count text.items ≤ most_lines
        → script_of false text.items ≡ Ok (heading_of script.now, script.now.lines)) }
{
    let mut out = Vec::new(alloc);
    put_heading(script, &mut out)?;
    put_lines(alloc, script.lines.as_slice(), &mut out)?;
    Ok(out)
}
