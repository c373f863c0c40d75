ghost use Rattle.std.specs.Prelude.{◌≡◌, ◌<◌, ◌≤◌, ◌+◌, length, nat_le, if◌then◌else◌, Some, None, IfSome};
ghost use Rattle.std.specs.List.{prefix_len, AllPass};
ghost use Rattle.std.specs.Char.{is_ascii_digit};
ghost use Rattle.gr_lex.specs.Bytes.{is_word_byte, number_of, greatest_number};
ghost use Rattle.gr_lex.specs.Reader.Reading.{quoted_len};

use crate::Token;
use crate::bytes::{QUOTE, is_word_byte};

/// How many bytes at the front may stand in a word.
pub(crate) fn word_len(front: &[u8]) -> usize
    ensures exact { result ≡ prefix_len is_word_byte front.now }
    ensures within { result ≤ length front.now }
{
    front.iter().take_while(|byte| is_word_byte(**byte)).count()
}

/// How many digits stand at the front.
pub(crate) fn digits_len(front: &[u8]) -> usize
    ensures exact { result ≡ prefix_len is_ascii_digit front.now }
    ensures within { result ≤ length front.now }
{
    front
        .iter()
        .take_while(|byte| byte.is_ascii_digit())
        .count()
}

/// The number that digits spell, where it isn't too large.
pub(crate) fn number_of(digits: &[u8]) -> Option<u64>
    requires { AllPass is_ascii_digit digits.now }
    ensures { result ≡ (if nat_le (number_of digits.now) greatest_number then Some (number_of digits.now) else None) }
{
    let mut number = 0;
    for byte in digits {
        let digit = u64::from(*byte - b'0');
        if number > (Token::GREATEST_NUMBER - digit) / 10 {
            return None;
        }
        number = number * 10 + digit;
    }
    Some(number)
}

/// How many bytes a quoted text has behind its first quote, where it ends.
pub(crate) fn quoted_len(behind: &[u8]) -> Option<usize>
    ensures exact { result ≡ quoted_len behind.now }
    ensures within { IfSome result (λ len. len ≤ length behind.now) }
{
    let mut at = 0;
    while at < behind.len() {
        if behind[at] != QUOTE {
            at += 1;
        } else if at + 1 < behind.len() && behind[at + 1] == QUOTE {
            at += 2;
        } else {
            return Some(at + 1);
        }
    }
    None
}
