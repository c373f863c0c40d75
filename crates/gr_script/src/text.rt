ghost use Rattle.std.specs.Prelude.{◌≡◌, ◌==◌, ◌<◌, ◌∷◌, ◌++◌, [], length, position, option_map, IfSome, MatchOption};
ghost use Rattle.gr_script.specs.Texts.{cut, lines_of, is_ended};

use memchr::memchr;

fn place_of(mark: u8, bytes: &[u8]) -> Option<usize>
    ensures place { result ≡ position (λ byte. byte == mark) bytes.now }
    ensures within { IfSome result (λ place. place < length bytes.now) }
{
    memchr(mark, bytes)
}

/// What stands in front of the first such byte, and what stands behind it.
pub(crate) fn cut(mark: u8, bytes: &[u8]) -> Option<(&[u8], &[u8])>
    ensures parts { option_map (λ parts. (parts.0.now, parts.1.now)) result ≡ cut mark bytes.now }
    ensures shorter { IfSome result (λ parts. length parts.1.now < length bytes.now) }
{
    let place = place_of(mark, bytes)?;
    Some((&bytes[..place], &bytes[place + 1..]))
}

/// What stands in front of the first space, and what stands behind it.
pub(crate) fn spaced(text: &[u8]) -> Option<(&[u8], &[u8])>
    ensures { IfSome result (λ parts. text.now ≡ parts.0.now ++ 0x20 ∷ parts.1.now) }
{
    let (front, rest) = cut(b' ', text)?;
    Some((front, rest))
}

/// The first line, and what follows it.
pub(crate) fn next_line(bytes: &[u8]) -> Option<(&[u8], &[u8])>
    ensures lines { MatchOption result (bytes.now ≡ []) (λ parts. lines_of bytes.now ≡ parts.0.now ∷ lines_of parts.1.now) }
    ensures shorter { IfSome result (λ parts. length parts.1.now < length bytes.now) }
{
    if bytes.is_empty() {
        return None;
    }
    match cut(b'\n', bytes) {
        Some((line, rest)) => Some((line, rest)),
        None => Some((bytes, &[])),
    }
}

/// Whether the last line, too, ends with a line feed.
pub(crate) fn is_ended(bytes: &[u8]) -> bool
    ensures { result ≡ is_ended bytes.now }
{
    match bytes.last() {
        None => true,
        Some(byte) => *byte == b'\n',
    }
}
