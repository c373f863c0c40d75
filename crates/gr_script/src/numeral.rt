ghost use Rattle.std.specs.Prelude.{◌≡◌, ◌≤◌, length, IsTrue};
ghost use Rattle.std.specs.List.{list_all};
ghost use Rattle.std.specs.Char.{is_ascii_digit};
ghost use Rattle.gr_script.specs.Numerals.{begins_number, is_number, worth, number_of};

/// The most digits of a number.
const MOST_DIGITS: usize = 20;

fn begins_number(text: &[u8]) -> bool
    ensures { result ≡ begins_number text.now }
{
    match text {
        [] => false,
        [first, more @ ..] => *first != b'0' || more.is_empty(),
    }
}

/// Whether all bytes are digits.
pub(crate) fn are_digits(text: &[u8]) -> bool
    ensures { result ≡ list_all is_ascii_digit text.now }
{
    text.iter().all(|byte| byte.is_ascii_digit())
}

fn is_number(text: &[u8]) -> bool
    ensures { result ≡ is_number text.now }
{
    begins_number(text) && text.len() <= MOST_DIGITS && are_digits(text)
}

fn worth(digits: &[u8]) -> u128
    requires few { length digits.now ≤ 20 }
    requires digits { IsTrue (list_all is_ascii_digit digits.now) }
    ensures { result ≡ worth digits.now }
{
    let mut number = 0;
    for digit in digits {
        number = number * 10 + u128::from(*digit - b'0');
    }
    number
}

/// The number that is spelled so: at most 20 digits, of which the first is 0 only where it is the last.
pub fn number_of(text: &[u8]) -> Option<u128>
    ensures { result ≡ number_of text.now }
{
    if is_number(text) {
        Some(worth(text))
    } else {
        None
    }
}
