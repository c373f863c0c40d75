ghost use Rattle.std.specs.Prelude.{◌≡◌, IfOk, All};
ghost use Rattle.gr_lex.specs.Layout.{IsToken};
ghost use Rattle.gr_oql.specs.Reader.Lexemes.{terminal, terminals};
ghost use Rattle.gr_oql.specs.Terminals.{terminal_of, terminals_of, word_terminal};
ghost use Rattle.gr_oql.specs.Words.{keyword_of};

use crate::keyword::Keyword;
use gr_lex::{Symbol, Token, TokenKind};
use gr_value::Memory;
use std::alloc::Global;

/// A token as the grammar sees it, with its part of the text.
#[derive(Clone, Copy)]
pub(crate) enum Lexeme<'a> {
    Keyword(Keyword, &'a str),
    Name(&'a str),
    Number(u64),
    /// What stands between the outer quotes, with each quote in it still doubled.
    Quoted(&'a str),
    Symbol(Symbol),
}

fn word_lexeme<'a>(word: &'a str) -> Lexeme<'a>
    ensures { terminal result ≡ word_terminal word.now (keyword_of word.now) }
{
    match Keyword::of(word) {
        Some(keyword) => Lexeme::Keyword(keyword, word),
        None => Lexeme::Name(word),
    }
}

fn lexeme_of<'a>(text: &'a str, token: &Token) -> Lexeme<'a>
    requires { IsToken text.now token.now }
    ensures { terminal result ≡ terminal_of text.now token.now }
{
    match token.kind {
        TokenKind::Word => word_lexeme(token.text(text)),
        TokenKind::Number(number) => Lexeme::Number(number),
        TokenKind::Quoted => Lexeme::Quoted(token.inside(text)),
        TokenKind::Symbol(symbol) => Lexeme::Symbol(symbol),
    }
}

pub(crate) fn lexemes<'a>(
    alloc: Global,
    text: &'a str,
    tokens: &[Token],
) -> Result<Vec<Lexeme<'a>>, Memory>
    requires { All (IsToken text.now) tokens.now }
    ensures { IfOk result (λ found. terminals found.items ≡ terminals_of text.now tokens.now) }
{
    let mut found = Vec::with_capacity(alloc, tokens.len())?;
    for token in tokens {
        found.push(lexeme_of(text, token))?;
    }
    Ok(found)
}
