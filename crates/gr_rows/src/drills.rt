ghost use Rattle.std.specs.Prelude.{IfOk};
ghost use Rattle.gr_script.specs.Rules.{IsWithin};

use crate::running::no_memory;
use crate::scripts::{bad_case, bytes_of};
use gr_script::{Form, Script, generate, print, read};
use std::alloc::Global;
use std::io;

// A number of a case, from 1 to the most.
fn number(text: &str, most: u32) -> io::Result<u32>
    ensures { IfOk result (λ number. IsWithin 1 most number) }
{
    let number = text.parse::<u32>().map_err(|_| bad_case())?;
    if number < 1 || number > most {
        return Err(bad_case());
    }
    Ok(number)
}

fn text_of(alloc: Global, script: &Script) -> io::Result<Vec<u8>> {
    print(alloc, script).map_err(|_| no_memory())
}

// Whether a drill's text ends so, and is read as a script of this text.
fn ends_so(alloc: Global, drill: &Script, end: &[u8]) -> io::Result<bool> {
    let text = text_of(alloc, drill)?;
    let Ok(again) = read(alloc, text.as_slice(), Form::Run) else {
        return Ok(false);
    };
    let again = text_of(alloc, &again)?;
    Ok(text.ends_with(end) && text.as_slice() == again.as_slice())
}

/// Whether a drill is drawn from its number. The case is the number, the steps, and the pieces of the end of
/// the drill's text, each behind a tab.
pub fn drill_answer(alloc: Global, case: &str) -> io::Result<String> {
    let (start, rest) = case.split_once('\t').ok_or_else(bad_case)?;
    let (steps, end) = rest.split_once('\t').ok_or_else(bad_case)?;
    let start = number(start, 2_147_483_646)?;
    let steps = number(steps, 50_000)?;
    let end = bytes_of(alloc, end)?;
    let drill = generate(alloc, start, steps).map_err(|_| no_memory())?;
    let word = if ends_so(alloc, &drill, end.as_slice())? {
        "drawn"
    } else {
        "drawn otherwise"
    };
    Ok(String::from_str(alloc, word)?)
}
