ghost use Rattle.std.specs.Prelude.{◌≡◌, ◌≤◌, ◌==◌, count_by, length};
ghost use Rattle.std.specs.List.{prefix_len};
ghost use Rattle.gr_script.specs.Cuts.{ends_with, line_count, without_return, is_space, after_spaces, before_spaces, text_said};
ghost use Rattle.gr_script.specs.Cuts.{is_skipped, field_len};

use crate::text::is_ended;

/// So many bytes are looked at together.
const BLOCK: usize = 128;

fn ends_with(byte: u8, text: &[u8]) -> bool
    ensures { result ≡ ends_with byte text.now }
{
    match text.last() {
        Some(last) => *last == byte,
        None => false,
    }
}

// How many line feeds there are in a few bytes. No byte ends the count early, and so small a count
// fits a byte, so that many bytes are looked at at once.
fn feeds_among(few: &[u8]) -> u8
    requires few { length few.now ≤ 128 }
    ensures exact { result ≡ count_by (λ byte. byte == 0x0A) few.now }
    ensures within { result ≤ length few.now }
{
    let mut feeds = 0u8;
    for byte in few {
        feeds += u8::from(*byte == b'\n');
    }
    feeds
}

// How many line feeds there are.
fn feeds_in(text: &[u8]) -> u64
    ensures exact { result ≡ count_by (λ byte. byte == 0x0A) text.now }
    ensures within { result ≤ length text.now }
{
    let mut feeds = 0;
    let mut rest = text;
    while rest.len() > BLOCK {
        let (block, behind) = rest.split_at(BLOCK);
        feeds += u64::from(feeds_among(block));
        rest = behind;
    }
    feeds + u64::from(feeds_among(rest))
}

/// How many lines a text has.
pub fn line_count(text: &[u8]) -> u64
    ensures { result ≡ line_count text.now }
{
    let feeds = feeds_in(text);
    if is_ended(text) { feeds } else { feeds + 1 }
}

fn without_return(line: &[u8]) -> &[u8]
    ensures { result.now ≡ without_return line.now }
{
    if ends_with(b'\r', line) {
        &line[..line.len() - 1]
    } else {
        line
    }
}

fn is_space(byte: u8) -> bool
    ensures { result ≡ is_space byte }
{
    byte == b' '
}

fn spaces_len(text: &[u8]) -> usize
    ensures exact { result ≡ prefix_len is_space text.now }
    ensures within { result ≤ length text.now }
{
    text.iter().take_while(|byte| is_space(**byte)).count()
}

/// The text without the spaces in front.
pub(crate) fn after_spaces(text: &[u8]) -> &[u8]
    ensures { result.now ≡ after_spaces text.now }
{
    &text[spaces_len(text)..]
}

fn before_spaces(text: &[u8]) -> &[u8]
    ensures { result.now ≡ before_spaces text.now }
{
    let mut end = text.len();
    while end > 0 && is_space(text[end - 1]) {
        end -= 1;
    }
    &text[..end]
}

/// What a line says.
pub(crate) fn text_said(line: &[u8]) -> &[u8]
    ensures { result.now ≡ text_said line.now }
{
    after_spaces(before_spaces(without_return(line)))
}

/// Whether nothing is said, or a comment.
pub(crate) fn is_skipped(text: &[u8]) -> bool
    ensures { result ≡ is_skipped text.now }
{
    match text {
        [] => true,
        [first, ..] => *first == b'#',
    }
}

/// How many bytes the field has that stands in front.
pub(crate) fn field_len(text: &[u8]) -> usize
    ensures exact { result ≡ field_len text.now }
    ensures within { result ≤ length text.now }
{
    text.iter().take_while(|byte| !is_space(**byte)).count()
}
