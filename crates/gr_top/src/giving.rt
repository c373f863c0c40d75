ghost use Rattle.std.specs.Prelude.{◌≡◌, ℕ, List, MatchResult};
ghost use Rattle.gr_script.specs.Said.{script_of};
ghost use Rattle.gr_script.specs.Scripts.{is_run};
ghost use Rattle.gr_script.specs.Sayings.{Ends};
ghost use Rattle.gr_top.specs.Outcomes.{IsGiven, IsWhole, Reads, runs, Stops};
ghost use Rattle.gr_top.specs.declared.words.Request.{Request as TheRequest};
ghost use Rattle.gr_io.specs.Streams.{stream, Stream};

use crate::Cause;
use gr_io::{ReadEnd, Source, read_all};
use gr_script::{Form, Script, ScriptEnd, line_count, read};
use std::alloc::Global;

/// The most bytes of a script.
const MOST_BYTES: u64 = 8_388_608;

/// All that the source has.
pub(crate) fn text_from<S: Source>(alloc: Global, source: &mut S) -> Result<Vec<u8>, Cause>
    ensures { (request : TheRequest) → Reads request → MatchResult result
        (λ text. IsWhole (stream (S.left source.old) (S.left source.new) (S.faults source.old) (S.faults source.new)) text.items)
        (Stops request (stream (S.left source.old) (S.left source.new) (S.faults source.old) (S.faults source.new))) }
{
    match read_all(alloc, source, MOST_BYTES) {
        Ok(text) => Ok(text),
        Err(ReadEnd::Fault) => Err(Cause::ReadFault),
        Err(ReadEnd::TooLarge(taken)) => Err(Cause::TooLarge {
            bytes: taken.len() as u64,
            lines: line_count(taken.as_slice()),
        }),
        Err(ReadEnd::Memory) => Err(Cause::Memory),
    }
}

/// Why a text is no script.
pub(crate) fn cause_of(end: ScriptEnd, text: &[u8]) -> Cause
    ensures { (request : TheRequest) (source : Stream) → Reads request → IsWhole source text.now
        → Ends end (script_of (runs request) text.now) → Stops request source result }
{
    match end {
        ScriptEnd::TooManyLines(lines) => Cause::TooLarge {
            bytes: text.len() as u64,
            lines,
        },
        ScriptEnd::Fault(fault) => Cause::Script(fault),
        ScriptEnd::Memory => Cause::Memory,
    }
}

/// The script that the source has. Its text isn't kept.
pub(crate) fn script_from<S: Source>(
    alloc: Global,
    source: &mut S,
    form: Form,
) -> Result<Script, Cause>
    ensures { (request : TheRequest) → Reads request → is_run form ≡ runs request → MatchResult result
        (λ script. (text : List ℕ) × IsGiven (runs request) (stream (S.left source.old) (S.left source.new) (S.faults source.old) (S.faults source.new)) text script)
        (Stops request (stream (S.left source.old) (S.left source.new) (S.faults source.old) (S.faults source.new))) }
{
    let text = text_from(alloc, source)?;
    let bytes = text.as_slice();
    match read(alloc, bytes, form) {
        Ok(script) => Ok(script),
        Err(end) => Err(cause_of(end, bytes)),
    }
}
