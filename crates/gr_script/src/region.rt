ghost use Rattle.std.specs.Prelude.{◌≡◌};
ghost use Rattle.std.specs.List.{list_all};
ghost use Rattle.gr_script.specs.Rules.{is_word_byte, begins_word, is_word, is_region};

/// The most bytes of a word.
const MOST_BYTES: usize = 254;

fn is_word_byte(byte: u8) -> bool
    ensures { result ≡ is_word_byte byte }
{
    byte.is_ascii_alphanumeric() || byte == b'_'
}

fn begins_word(bytes: &[u8]) -> bool
    ensures { result ≡ begins_word bytes.now }
{
    match bytes {
        [] => false,
        [first, ..] => !first.is_ascii_digit(),
    }
}

fn has_word_bytes(bytes: &[u8]) -> bool
    ensures { result ≡ list_all is_word_byte bytes.now }
{
    bytes.iter().all(|byte| is_word_byte(*byte))
}

fn is_word(bytes: &[u8]) -> bool
    ensures { result ≡ is_word bytes.now }
{
    begins_word(bytes) && bytes.len() <= MOST_BYTES && has_word_bytes(bytes)
}

/// Whether it is a slash and a word.
pub(crate) fn is_region(bytes: &[u8]) -> bool
    ensures { result ≡ is_region bytes.now }
{
    match bytes {
        [] => false,
        [first, word @ ..] => *first == b'/' && is_word(word),
    }
}
