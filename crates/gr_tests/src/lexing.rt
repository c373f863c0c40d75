ghost use Rattle.gr_lex.specs.Layout.{IsToken};

use gr_lex::{LexFault, Symbol, Token, TokenKind, TokenList, tokens};
use std::alloc::Global;
use std::process::Abort;
use std::test::Fail;

macro_rules! token {
    ($kind:expr, $start:expr, $end:expr) => {
        Token {
            kind: $kind,
            start: $start,
            end: $end,
        }
    };
}

static TOKENS: [(&str, &[Token]); 13] = [
    ("", &[]),
    (" \t ", &[]),
    (
        "a_1 \tB",
        &[token!(TokenKind::Word, 0, 3), token!(TokenKind::Word, 5, 6)],
    ),
    ("007", &[token!(TokenKind::Number(7), 0, 3)]),
    (
        "12ab",
        &[
            token!(TokenKind::Number(12), 0, 2),
            token!(TokenKind::Word, 2, 4),
        ],
    ),
    (
        "000000000000000000000000000000000000001",
        &[token!(TokenKind::Number(1), 0, 39)],
    ),
    (
        "9223372036854775808",
        &[token!(TokenKind::Number(9223372036854775808), 0, 19)],
    ),
    ("'it''s'", &[token!(TokenKind::Quoted, 0, 7)]),
    (
        "''''''a",
        &[
            token!(TokenKind::Quoted, 0, 6),
            token!(TokenKind::Word, 6, 7),
        ],
    ),
    (
        "'\u{e9};\n' x",
        &[
            token!(TokenKind::Quoted, 0, 6),
            token!(TokenKind::Word, 7, 8),
        ],
    ),
    (
        "<>=<=< >==>",
        &[
            token!(TokenKind::Symbol(Symbol::Angles), 0, 2),
            token!(TokenKind::Symbol(Symbol::Equal), 2, 3),
            token!(TokenKind::Symbol(Symbol::LessEqual), 3, 5),
            token!(TokenKind::Symbol(Symbol::Less), 5, 6),
            token!(TokenKind::Symbol(Symbol::GreaterEqual), 7, 9),
            token!(TokenKind::Symbol(Symbol::Equal), 9, 10),
            token!(TokenKind::Symbol(Symbol::Greater), 10, 11),
        ],
    ),
    (
        "*(),.",
        &[
            token!(TokenKind::Symbol(Symbol::Star), 0, 1),
            token!(TokenKind::Symbol(Symbol::LeftBracket), 1, 2),
            token!(TokenKind::Symbol(Symbol::RightBracket), 2, 3),
            token!(TokenKind::Symbol(Symbol::Comma), 3, 4),
            token!(TokenKind::Symbol(Symbol::Dot), 4, 5),
        ],
    ),
    (
        "!=/$-",
        &[
            token!(TokenKind::Symbol(Symbol::BangEqual), 0, 2),
            token!(TokenKind::Symbol(Symbol::Slash), 2, 3),
            token!(TokenKind::Symbol(Symbol::Dollar), 3, 4),
            token!(TokenKind::Symbol(Symbol::Minus), 4, 5),
        ],
    ),
];

// The first token of a copy.
fn copied_first(alloc: Global, tokens: &TokenList) -> Result<Option<Token>, Fail> {
    let copy = tokens.copy(alloc)?;
    Ok(copy.get(0).copied())
}

fn has_tokens(rt: &impl Abort, alloc: Global, text: &str, expected: &[Token]) -> Result<(), Fail> {
    let found = tokens(alloc, text)?;
    assert_eq!(rt; found.as_slice(), expected, "{text}");
    assert_eq!(rt; found.len(), expected.len());
    assert!(rt; copied_first(alloc, &found)? == expected.first().copied());
    Ok(())
}

#[test]
fn texts_have_tokens(rt: HostRuntime) -> Result<(), Fail> {
    for (text, expected) in &TOKENS {
        has_tokens(&rt, rt.alloc(), text, expected)?;
    }
    Ok(())
}

static FAULTS: [(&str, LexFault); 10] = [
    ("a 'b", LexFault::OpenText(2)),
    ("'''", LexFault::OpenText(0)),
    ("' ;", LexFault::OpenText(0)),
    ("a;'", LexFault::BadCharacter(1)),
    ("! =", LexFault::BadCharacter(0)),
    ("x\n", LexFault::BadCharacter(1)),
    ("'\u{e9}'\u{e9}", LexFault::BadCharacter(4)),
    (" 9223372036854775809 ;", LexFault::NumberTooLarge(1)),
    ("- 09223372036854775809", LexFault::NumberTooLarge(2)),
    (
        "100000000000000000000000000000000000000000",
        LexFault::NumberTooLarge(0),
    ),
];

#[test]
fn texts_have_a_first_fault(rt: HostRuntime) -> Result<(), Fail> {
    for (text, expected) in &FAULTS {
        assert!(rt; tokens(rt.alloc(), text).err() == Some(*expected), "{text}");
    }
    Ok(())
}

fn is_cut_out(rt: &impl Abort, token: &Token, text: &str)
    requires { IsToken text.now token.now }
{
    if token.kind == TokenKind::Quoted {
        assert_eq!(rt; token.text(text), "'it''s'");
        assert_eq!(rt; token.inside(text), "it''s");
    } else {
        assert_eq!(rt; token.text(text), "ab");
    }
}

#[test]
fn a_token_is_cut_out_of_its_text(rt: HostRuntime) -> Result<(), Fail> {
    let text = " ab 'it''s'";
    let found = tokens(rt.alloc(), text)?;
    for token in found.as_slice() {
        is_cut_out(&rt, token, text);
    }
    Ok(())
}
