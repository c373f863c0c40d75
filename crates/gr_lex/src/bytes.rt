ghost use Rattle.std.specs.Prelude.{◌≡◌, ◌≤◌, length, Some, None, IfSome};
ghost use Rattle.gr_lex.specs.Bytes.{is_blank, is_letter, is_word_byte, symbol_of, spelling};

use crate::Symbol;

pub(crate) const QUOTE: u8 = b'\'';

pub(crate) fn is_blank(byte: u8) -> bool
    ensures { result ≡ is_blank byte }
{
    byte == b' ' || byte == b'\t'
}

pub(crate) fn is_letter(byte: u8) -> bool
    ensures { result ≡ is_letter byte }
{
    byte.is_ascii_alphabetic() || byte == b'_'
}

pub(crate) fn is_word_byte(byte: u8) -> bool
    ensures { result ≡ is_word_byte byte }
{
    is_letter(byte) || byte.is_ascii_digit()
}

/// The longest symbol that begins with a byte, where `next` is the byte after it.
pub(crate) fn symbol_of(byte: u8, next: u8) -> Option<Symbol>
    ensures exact { result ≡ symbol_of byte next }
    ensures alone { IfSome result (λ s. next ≡ 0 → length (spelling s) ≡ 1) }
{
    match byte {
        b'*' => Some(Symbol::Star),
        b'(' => Some(Symbol::LeftBracket),
        b')' => Some(Symbol::RightBracket),
        b',' => Some(Symbol::Comma),
        b'.' => Some(Symbol::Dot),
        b'=' => Some(Symbol::Equal),
        b'<' if next == b'>' => Some(Symbol::Angles),
        b'<' if next == b'=' => Some(Symbol::LessEqual),
        b'<' => Some(Symbol::Less),
        b'!' if next == b'=' => Some(Symbol::BangEqual),
        b'>' if next == b'=' => Some(Symbol::GreaterEqual),
        b'>' => Some(Symbol::Greater),
        b'/' => Some(Symbol::Slash),
        b'$' => Some(Symbol::Dollar),
        b'-' => Some(Symbol::Minus),
        _ => None,
    }
}

pub(crate) fn symbol_len(symbol: Symbol) -> usize
    ensures exact { result ≡ length (spelling symbol) }
    ensures some { 1 ≤ result }
    ensures few { result ≤ 2 }
{
    match symbol {
        Symbol::Angles | Symbol::BangEqual | Symbol::LessEqual | Symbol::GreaterEqual => 2,
        _ => 1,
    }
}
