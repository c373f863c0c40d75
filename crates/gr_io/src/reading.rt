ghost use Rattle.std.specs.Prelude.{◌≡◌, ◌≤◌, ◌<◌, ◌++◌, length, take, vec_len, MatchResult, IfOk, IfErr, IfSome, OnOk, OnErr, ◌+◌};
ghost use Rattle.std.specs.Io.KnownBytes.{Consumes, IsAtEnd, Keeps};
ghost use Rattle.gr_io.specs.Ends.{EndsFor, StopsFor};

use crate::{ReadEnd, Source};
use std::alloc::{AllocError, Global};

/// The most that one call asks for.
const CHUNK: usize = 0x1_0000;

/// Reads a source to its end, and takes at most `limit + 1` bytes.
pub fn read_all<S: Source>(alloc: Global, source: &mut S, limit: u64) -> Result<Vec<u8>, ReadEnd>
    ensures whole { IfOk result (λ bytes. IfSome (S.left source.old) (λ left. bytes.items ≡ left)) }
    ensures taken { IfOk result (λ bytes. Consumes (S.left source.old) (S.left source.new) bytes.items) }
    ensures end { OnOk result (IsAtEnd (S.left source.new)) }
    ensures fits { IfOk result (λ bytes. vec_len bytes ≤ limit) }
    ensures cause { IfErr result (EndsFor limit (S.left source.old) (S.left source.new) (S.faults source.old) (S.faults source.new)) }
    ensures never_falls { S.faults source.old ≤ S.faults source.new }
{
    let mut buffer = zeros(alloc, CHUNK)?;
    let mut bytes = Vec::new(alloc);
    loop {
        let count = read_more(source, &mut buffer, &mut bytes, limit)?;
        if count == 0 {
            return Ok(bytes);
        }
        if bytes.len() as u64 > limit {
            return Err(ReadEnd::TooLarge(bytes));
        }
    }
}

fn zeros(alloc: Global, count: usize) -> Result<Vec<u8>, AllocError>
    ensures { IfOk result (λ zeros. vec_len zeros ≡ count) }
{
    vec![in alloc; 0; count]
}

// One read, whose bytes come behind `bytes`. Memory is taken before the read, so that none is lost.
fn read_more<S: Source>(
    source: &mut S,
    buffer: &mut [u8],
    bytes: &mut Vec<u8>,
    limit: u64,
) -> Result<usize, ReadEnd>
    requires some { 0 < length buffer.old }
    requires fits { vec_len bytes.old ≤ limit }
    ensures same { length buffer.new ≡ length buffer.old }
    ensures within { IfOk result (λ count. count ≤ length buffer.new) }
    ensures bytes { IfOk result (λ count. bytes.new.items ≡ bytes.old.items ++ take count buffer.new) }
    ensures taken { IfOk result (λ count. Consumes (S.left source.old) (S.left source.new) (take count buffer.new)) }
    ensures end { IfOk result (λ count. count ≡ 0 → IsAtEnd (S.left source.new)) }
    ensures most { vec_len bytes.new ≤ limit + 1 }
    ensures kept { OnErr result (Keeps (S.left source.old) (S.left source.new)) }
    ensures cause { IfErr result (StopsFor (S.faults source.old) (S.faults source.new)) }
    ensures never_falls { S.faults source.old ≤ S.faults source.new }
{
    let most = (buffer.len() - 1).min(limit as usize - bytes.len()) + 1;
    bytes.reserve(most)?;
    let count = source.read(&mut buffer[..most])?;
    bytes.extend_from_slice(&buffer[..count])?;
    Ok(count)
}
