ghost use Rattle.gr_script.specs.Said.{script_of as text_script};
ghost use Rattle.gr_script.specs.Sayings.{Gives};
ghost use Rattle.gr_script.specs.Scripts.{heading_of, is_run as is_run_form};

use crate::{Feed, Form, LineList, Script, ScriptEnd};
use std::alloc::Global;

/// Reads a script.
pub fn read(alloc: Global, bytes: &[u8], form: Form) -> Result<Script, ScriptEnd>
    // Which script it is, or which end.
    ensures exact { Gives (λ script. (heading_of script, script.lines)) result (text_script (is_run_form form) bytes.now) }
{
    let mut feed = Feed::new(alloc, bytes, form)?;
    let mut lines = LineList::new(alloc)?;
    while let Some(line) = feed.next(alloc)? {
        lines.push(line)?;
    }
    Ok(feed.script(alloc, lines)?)
}
