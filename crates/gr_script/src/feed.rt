ghost use Rattle.std.specs.Prelude.{◌≡◌, [], IfOk, MatchResult, reverse};
ghost use Rattle.gr_script.specs.Rules.{IsHeading, IsScript};
ghost use Rattle.gr_script.specs.Said.{script_of};
ghost use Rattle.gr_script.specs.Sayings.{Ends};
ghost use Rattle.gr_script.specs.Scripts.{heading_of, is_run as is_run_form};
ghost use Rattle.gr_script.specs.Taken.{IsFed, heading_taken};

use crate::cuts::line_count;
use crate::ending::{ScriptEnd, end_at};
use crate::form::is_run;
use crate::past::Past;
use crate::sayings::{ended, take_line};
use crate::telling::script_of;
use crate::{Form, Line, LineList, Script};
use gr_value::Memory;
use std::alloc::Global;
use std::marker::Model;

/// The most lines of a script.
const MOST_LINES: u64 = 200000;

/// A script's text that is read line by line. Contracts see the text, and how many lines were taken in.
#[derive(Drop)]
pub struct Feed<'a> {
    past: Past<'a>,
}

impl<'a> Model for Feed<'a> {
    ghost use Rattle.gr_script.specs.Taken.{Taken};

    ghost Value = { Taken };

    ghost view = { λ feed. feed.past };
}

impl<'a> Feed<'a> {
    /// Begins to read. How many lines there are is looked at before any fault.
    pub fn new(alloc: Global, bytes: &'a [u8], form: Form) -> Result<Feed<'a>, ScriptEnd>
        ensures { MatchResult result (λ feed. feed ≡ record { runs = is_run_form form; text = bytes.now; count = 0 })
            (λ end. Ends end (script_of (is_run_form form) bytes.now)) }
    {
        let lines = line_count(bytes);
        if MOST_LINES < lines {
            return Err(ScriptEnd::TooManyLines(lines));
        }
        Ok(Feed {
            past: Past::new(alloc, is_run(form), bytes)?,
        })
    }

    /// The next line of the script, or None behind the last.
    pub fn next(&mut self, alloc: Global) -> Result<Option<Line>, ScriptEnd>
        ensures { MatchResult result (IsFed self.old self.new) (λ end. Ends end (script_of self.old.runs self.old.text)) }
    {
        while let Some(ahead) = self.past.ahead() {
            let number = self.past.next_number();
            match take_line(alloc, &mut self.past, ahead) {
                Ok(None) => (),
                Ok(Some(line)) => return Ok(Some(line)),
                Err(halt) => return Err(end_at(number, halt)),
            }
        }
        if let Err(end) = ended(&self.past) {
            return Err(end);
        }
        Ok(None)
    }

    /// The script's heading, with no lines.
    pub fn heading(&self, alloc: Global) -> Result<Script, Memory>
        requires { IsHeading (heading_taken self.now) }
        ensures heading { IfOk result (λ script. heading_of script ≡ heading_taken self.now) }
        ensures lines { IfOk result (λ script. script.lines ≡ []) }
    {
        script_of(alloc, &self.past, LineList::new(alloc)?)
    }

    // The script, with these lines.
    pub(crate) fn script(&self, alloc: Global, lines: LineList) -> Result<Script, Memory>
        requires { IsScript (heading_taken self.now) lines }
        ensures heading { IfOk result (λ script. heading_of script ≡ heading_taken self.now) }
        ensures lines { IfOk result (λ script. script.lines ≡ lines) }
    {
        script_of(alloc, &self.past, lines)
    }
}
