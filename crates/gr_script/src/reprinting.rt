ghost use Rattle.std.specs.Prelude.{◌≡◌, ◌++◌, false, IfOk, OnOk, MatchResult};
ghost use Rattle.gr_script.specs.Printed.{heading_sayings, line_text};
ghost use Rattle.gr_script.specs.Printing.{text_of_sayings};
ghost use Rattle.gr_script.specs.Reprinted.{IsPrintOf};
ghost use Rattle.gr_script.specs.Rules.{IsHeading};
ghost use Rattle.gr_script.specs.Said.{script_of};
ghost use Rattle.gr_script.specs.Sayings.{Ends};
ghost use Rattle.gr_script.specs.Taken.{heading_taken};

use crate::print_line::put_line;
use crate::print_script::put_heading;
use crate::{Feed, Form, Line, ScriptEnd};
use gr_value::Memory;
use std::alloc::Global;

// The text of the heading that was taken in.
fn heading_text(alloc: Global, feed: &Feed) -> Result<Vec<u8>, Memory>
    requires { IsHeading (heading_taken feed.now) }
    ensures { IfOk result (λ text. text.items ≡ text_of_sayings (heading_sayings (heading_taken feed.now))) }
{
    let mut out = Vec::new(alloc);
    put_heading(&feed.heading(alloc)?, &mut out)?;
    Ok(out)
}

// Prints a line, and lets it go.
fn put_last(alloc: Global, line: Line, out: &mut Vec<u8>) -> Result<(), Memory>
    ensures { OnOk result (out.new.items ≡ out.old.items ++ line_text line) }
{
    put_line(alloc, &line, out)
}

/// Reads a script in the form of replay and prints it. Each line is printed as soon as it is read, and none
/// is kept.
pub fn reprint(alloc: Global, text: &[u8]) -> Result<Vec<u8>, ScriptEnd>
    ensures { MatchResult result (λ printed. IsPrintOf text.now printed.items) (λ end. Ends end (script_of false text.now)) }
{
    let mut feed = Feed::new(alloc, text, Form::Replay)?;
    let mut next = feed.next(alloc)?;
    let mut out = heading_text(alloc, &feed)?;
    while let Some(line) = next {
        put_last(alloc, line, &mut out)?;
        next = feed.next(alloc)?;
    }
    Ok(out)
}
