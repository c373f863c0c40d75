use crate::running::{no_memory, sink_in_memory};
use gr_script::{Reason, ScriptFault};
use gr_top::{Cause, cause_text, conclude};
use std::alloc::Global;
use std::io;

// Whether a cause has this line and this status.
fn is_cause_so(alloc: Global, cause: &Cause, line: &str, status: u8) -> io::Result<bool> {
    let text = cause_text(alloc, cause).map_err(|_| no_memory())?;
    let mut errors = sink_in_memory(alloc, usize::MAX, Vec::new(alloc))?;
    let ended = conclude(&mut errors, cause);
    Ok(text.as_slice() == line.as_bytes() && errors.held() == line.as_bytes() && ended == status)
}

/// Whether each cause has its line and its status.
pub fn are_causes_so(alloc: Global) -> io::Result<bool> {
    let fault = ScriptFault {
        line: 4_294_967_295,
        reason: Reason::NotInRun,
    };
    let too_large = Cause::TooLarge {
        bytes: 8_388_609,
        lines: 0,
    };
    let causes = [
        (Cause::Finished, "", 0),
        (
            Cause::Usage(4_294_967_295),
            "georep: word 4294967296 isn't understood\n",
            2,
        ),
        (Cause::ReadFault, "georep: the input can't be read\n", 3),
        (too_large, "georep: the script is too large\n", 4),
        (
            Cause::Script(fault),
            "georep: line 4294967295: 18 NotInRun\n",
            5,
        ),
        (
            Cause::WriteFault,
            "georep: the output can't be written\n",
            6,
        ),
        (Cause::Memory, "georep: no memory\n", 7),
        (
            Cause::NoMember(8),
            "georep: the script has no member 8\n",
            9,
        ),
        (
            Cause::OtherRegion,
            "georep: the query asks another region\n",
            10,
        ),
    ];
    for (cause, line, status) in &causes {
        if !is_cause_so(alloc, cause, line, *status)? {
            return Ok(false);
        }
    }
    Ok(true)
}
