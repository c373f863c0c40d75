use crate::running::Left;
use std::str;

/// How a run over a script may end, where its streams don't fail and there is memory.
#[derive(Clone, Copy)]
pub enum Ending {
    /// With the whole output, and no message.
    Finished,
    /// With no output, and a message that names a line of the script, or the one behind its last.
    Refused,
}

// The number of line feeds.
fn line_feeds(script: &[u8]) -> usize {
    let mut feeds = 0usize;
    for byte in script {
        if *byte == b'\n' {
            feeds = feeds.saturating_add(1);
        }
    }
    feeds
}

/// Whether the line is one of the text, or the one behind its last.
pub fn is_within(line: usize, text: &[u8]) -> bool {
    let unended = if text.ends_with(b"\n") || text.is_empty() {
        1
    } else {
        2
    };
    1 <= line && line <= line_feeds(text).saturating_add(unended)
}

// The line that a message names.
fn line_named(message: &[u8]) -> Option<usize> {
    let message = str::from_utf8(message).ok()?;
    let rest = message.strip_prefix("georep: line ")?;
    let (line, reason) = rest.split_once(": ")?;
    let (number, name) = reason.strip_suffix('\n')?.split_once(' ')?;
    if number.parse::<u8>().is_err() || name.is_empty() {
        return None;
    }
    line.parse::<usize>().ok()
}

fn names_a_line(message: &[u8], script: &[u8]) -> bool {
    match line_named(message) {
        Some(line) => is_within(line, script),
        None => false,
    }
}

/// How a run over this script ended; `None` where it ended in no way that it may.
pub fn end_of(left: &Left, script: &[u8]) -> Option<Ending> {
    let message = left.message.held();
    let is_silent = left.output.held().is_empty();
    match left.status.as_str() {
        "0" if message.is_empty() && !is_silent => Some(Ending::Finished),
        "5" if is_silent && names_a_line(message, script) => Some(Ending::Refused),
        _ => None,
    }
}
