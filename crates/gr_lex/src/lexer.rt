ghost use Rattle.std.specs.Prelude.{◌≡◌, ◌⊎◌, ◌+◌, ◌<◌, ◌^◌, length, slice_index, List, Ok, Err, IfOk, IfErr, All};
ghost use Rattle.gr_lex.specs.Bytes.{symbol_of};
ghost use Rattle.std.specs.List.{AllPass};
ghost use Rattle.std.specs.Char.{is_ascii_digit};
ghost use Rattle.gr_lex.specs.Layout.{IsToken, IsLaidOut};
ghost use Rattle.gr_lex.specs.Faults.{IsFault};
ghost use Rattle.gr_lex.specs.declared.fault.LexFault.TheVariants as lex_fault;
ghost use Rattle.gr_lex.specs.Reader.Reading.{spanning, number_at, quoted_at, symbol_at, quoted_len, token_at, tokens_of, Gives, Spans};

use crate::bytes::{QUOTE, is_blank, is_letter, symbol_len, symbol_of};
use crate::scan::{digits_len, number_of, quoted_len, word_len};
use crate::{LexFault, Token, TokenKind, TokenList};
use std::alloc::Global;

/// The tokens of a text. The time that it takes grows as the text does.
#[tactic(auto, using(crate::proofs::Laid::laid_from_gives, crate::proofs::Laid::each_from_gives, crate::proofs::Laid::stops_from_gives, crate::proofs::Only::only, crate::proofs::Only::only_fault))]
pub fn tokens(alloc: Global, text: &str) -> Result<TokenList, LexFault>
    ensures laid_out { IfOk result (λ ts. IsLaidOut text.now 0 ts) }
    ensures each { IfOk result (λ ts. All (IsToken text.now) ts) }
    // What is laid out so are the tokens, unless memory is refused.
    ensures only { (ts : List Token) → IsLaidOut text.now 0 ts → (result ≡ Ok ts) ⊎ (result ≡ Err lex_fault.Memory) }
    // A fault stands at the first place where neither a blank nor a token does.
    ensures stops { IfErr result (λ fault. (fault ≡ lex_fault.Memory) ⊎ IsFault text.now fault) }
    // A text with such a fault has that answer, unless memory is refused.
    ensures only_fault { (fault : LexFault) → IsFault text.now fault → (result ≡ Err fault) ⊎ (result ≡ Err lex_fault.Memory) }
{
    tokens_in_turn(alloc, text)
}

fn tokens_in_turn(alloc: Global, text: &str) -> Result<TokenList, LexFault>
    ensures { Gives result (tokens_of text.now) }
{
    let bytes = text.as_bytes();
    let mut tokens = TokenList::new(alloc)?;
    let mut at = 0;
    while at < bytes.len() {
        if is_blank(bytes[at]) {
            at += 1;
        } else {
            let token = token_at(&bytes[at..], at as u64)?;
            tokens.push(token)?;
            at = token.end as usize;
        }
    }
    Ok(tokens)
}

// The token at the front of some bytes, the first of which stands at `start`.
fn token_at(front: &[u8], start: u64) -> Result<Token, LexFault>
    requires some { 0 < length front.now }
    requires fits { start + length front.now < 2 ^ 64 }
    ensures exact { result ≡ token_at start front.now }
    ensures spans { IfOk result (λ t. Spans start (length front.now) t) }
{
    let first = front[0];
    if is_letter(first) {
        Ok(spanning(TokenKind::Word, start, word_len(front)))
    } else if first.is_ascii_digit() {
        number_at(&front[..digits_len(front)], start)
    } else if first == QUOTE {
        quoted_at(&front[1..], start)
    } else {
        symbol_at(front, start)
    }
}

fn spanning(kind: TokenKind, start: u64, len: usize) -> Token
    requires { start + len < 2 ^ 64 }
    ensures { result ≡ spanning kind start len }
{
    Token {
        kind,
        start,
        end: start + len as u64,
    }
}

fn number_at(digits: &[u8], start: u64) -> Result<Token, LexFault>
    requires digits { AllPass is_ascii_digit digits.now }
    requires fits { start + length digits.now < 2 ^ 64 }
    ensures { result ≡ number_at start digits.now }
{
    match number_of(digits) {
        Some(number) => Ok(spanning(TokenKind::Number(number), start, digits.len())),
        None => Err(LexFault::NumberTooLarge(start)),
    }
}

// A quoted text, by what stands behind its first quote.
fn quoted_at(behind: &[u8], start: u64) -> Result<Token, LexFault>
    requires fits { start + length behind.now + 1 < 2 ^ 64 }
    ensures exact { result ≡ quoted_at start (quoted_len behind.now) }
    ensures spans { IfOk result (λ t. Spans start (length behind.now + 1) t) }
{
    match quoted_len(behind) {
        Some(len) => Ok(spanning(TokenKind::Quoted, start, len + 1)),
        None => Err(LexFault::OpenText(start)),
    }
}

fn symbol_at(front: &[u8], start: u64) -> Result<Token, LexFault>
    requires some { 0 < length front.now }
    requires fits { start + length front.now < 2 ^ 64 }
    ensures exact { result ≡ symbol_at start (symbol_of (slice_index front.now 0) (slice_index front.now 1)) }
    ensures spans { IfOk result (λ t. Spans start (length front.now) t) }
{
    let next = front.get(1).copied().unwrap_or(0);
    match symbol_of(front[0], next) {
        Some(symbol) => Ok(spanning(TokenKind::Symbol(symbol), start, symbol_len(symbol))),
        None => Err(LexFault::BadCharacter(start)),
    }
}
