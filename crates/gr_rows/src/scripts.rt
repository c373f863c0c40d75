use crate::running::no_memory;
use gr_script::{Form, Reason, ScriptEnd, ScriptFault, read};
use std::alloc::Global;
use std::io;

/// What a case that can't be read is answered.
pub fn bad_case() -> io::Error {
    io::Error::from(io::ErrorKind::InvalidData)
}

// The byte that an escape stands for, and what follows the escape.
fn escape(text: &str) -> Option<(u8, &str)> {
    let (letter, rest) = text.split_at_checked(1)?;
    match letter {
        "n" => Some((b'\n', rest)),
        "r" => Some((b'\r', rest)),
        "t" => Some((b'\t', rest)),
        "b" => Some((b'\\', rest)),
        "x" => {
            let (digits, rest) = rest.split_at_checked(2)?;
            Some((u8::from_str_radix(digits, 16).ok()?, rest))
        }
        _ => None,
    }
}

// Puts bytes last that are written as text. A backslash begins an escape.
fn put_written(bytes: &mut Vec<u8>, text: &str) -> io::Result<()> {
    for (index, part) in text.split('\\').enumerate() {
        if index == 0 {
            bytes.extend_from_slice(part.as_bytes())?;
        } else {
            let (byte, rest) = escape(part).ok_or_else(bad_case)?;
            bytes.push(byte)?;
            bytes.extend_from_slice(rest.as_bytes())?;
        }
    }
    Ok(())
}

// Puts a piece of a script last. It may begin with how often it stands there, and a bar.
fn put_piece(bytes: &mut Vec<u8>, piece: &str) -> io::Result<()> {
    let (times, text) = piece.split_once('|').unwrap_or(("1", piece));
    let times = times.parse::<usize>().map_err(|_| bad_case())?;
    for _ in 0..times {
        put_written(bytes, text)?;
    }
    Ok(())
}

/// The bytes that pieces stand for, each behind a tab.
pub fn bytes_of(alloc: Global, pieces: &str) -> io::Result<Vec<u8>> {
    let mut bytes = Vec::new(alloc);
    for piece in pieces.split('\t') {
        put_piece(&mut bytes, piece)?;
    }
    Ok(bytes)
}

// The number of the fault that a reason names.
fn fault_number(reason: Reason) -> Option<u8> {
    match reason {
        Reason::Header(number)
        | Reason::Key(number)
        | Reason::Value(number)
        | Reason::Query(number) => Some(number),
        _ => None,
    }
}

// A refusal: the line, the reason, and the number of the fault that the reason names.
fn fault_words(alloc: Global, fault: ScriptFault) -> io::Result<String> {
    let ScriptFault { line, reason } = fault;
    match fault_number(reason) {
        Some(number) => Ok(format!(in alloc; "{line} {reason} {number}")?),
        None => Ok(format!(in alloc; "{line} {reason}")?),
    }
}

// What reading a script gives.
fn reading(alloc: Global, bytes: &[u8], form: Form) -> io::Result<String> {
    match read(alloc, bytes, form) {
        Ok(_) => Ok(String::from_str(alloc, "read")?),
        Err(ScriptEnd::TooManyLines(lines)) => Ok(format!(in alloc; "too many lines {lines}")?),
        Err(ScriptEnd::Fault(fault)) => fault_words(alloc, fault),
        Err(ScriptEnd::Memory) => Err(no_memory()),
    }
}

/// What reading a script gives. The case is the form's word, and the pieces of the script, each behind
/// a tab.
pub fn script_answer(alloc: Global, case: &str) -> io::Result<String> {
    let (word, pieces) = case.split_once('\t').unwrap_or((case, ""));
    let form = if word == "run" {
        Form::Run
    } else {
        Form::Replay
    };
    reading(alloc, bytes_of(alloc, pieces)?.as_slice(), form)
}
