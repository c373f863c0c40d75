ghost use Rattle.std.specs.Prelude.{◌≡◌, ◌≤◌, length, if◌then◌else◌, option_map, IfSome};
ghost use Rattle.gr_oql.specs.Reader.Lexemes.{terminals};
ghost use Rattle.gr_oql.specs.Reader.Gives.{Passes};
ghost use Rattle.gr_oql.specs.Reader.Names.{AreNamed, HasWordBytes};
ghost use Rattle.gr_oql.specs.Terminals.{symbol_eq, is_symbol, is_keyword, begins, front, rest};
ghost use Rattle.gr_oql.specs.Terminals.{as_name, as_word, as_number, as_quoted, undoubled};

use crate::keyword::Keyword;
use crate::lexeme::Lexeme;
use gr_lex::Symbol;
use std::alloc::Global;
use std::marker::Model;

/// What is left of a query's tokens. Contracts see it as their list.
#[derive(Drop)]
pub(crate) struct TokenCursor<'a> {
    left: &'a [Lexeme<'a>],
    pub(crate) alloc: Global,
}

impl<'a> Model for TokenCursor<'a> {
    ghost use Rattle.std.specs.Prelude.{List};
    ghost use Rattle.gr_oql.specs.Terminals.{Terminal};
    ghost use Rattle.gr_oql.specs.Reader.Lexemes.{terminals};
    ghost use Rattle.gr_oql.specs.Reader.Names.{AreNamed};

    ghost Value = { List Terminal };

    ghost view = { λ cursor. terminals cursor.left.now };

    ghost invariant = { λ cursor. AreNamed (terminals cursor.left.now) };
}

fn same_symbol(one: Symbol, other: Symbol) -> bool
    ensures { result ≡ symbol_eq one other }
{
    one == other
}

impl<'a> TokenCursor<'a> {
    pub(crate) fn new(alloc: Global, left: &'a [Lexeme<'a>]) -> TokenCursor<'a>
        requires { AreNamed (terminals left.now) }
        ensures { result ≡ terminals left.now }
    {
        TokenCursor { left, alloc }
    }

    /// How many tokens are left.
    pub(crate) fn len(&self) -> usize
        ensures { result ≡ length self.now }
    {
        self.left.len()
    }

    pub(crate) fn is_symbol(&self, symbol: Symbol) -> bool
        ensures { result ≡ begins (is_symbol symbol) self.now }
    {
        match self.left.first() {
            Some(Lexeme::Symbol(other)) => same_symbol(*other, symbol),
            _ => false,
        }
    }

    pub(crate) fn is_keyword(&self, keyword: Keyword) -> bool
        ensures { result ≡ begins (is_keyword keyword) self.now }
    {
        match self.left.first() {
            Some(Lexeme::Keyword(other, _)) => other.is(keyword),
            _ => false,
        }
    }

    pub(crate) fn name(&self) -> Option<&'a str>
        ensures exact { option_map (λ word. word.now) result ≡ front as_name self.now }
        ensures named { IfSome result (λ word. HasWordBytes word.now) }
    {
        match self.left.first() {
            Some(Lexeme::Name(word)) => Some(word),
            _ => None,
        }
    }

    /// A name or a keyword.
    pub(crate) fn word(&self) -> Option<&'a str>
        ensures { option_map (λ word. word.now) result ≡ front as_word self.now }
    {
        match self.left.first() {
            Some(Lexeme::Name(word)) => Some(word),
            Some(Lexeme::Keyword(_, word)) => Some(word),
            _ => None,
        }
    }

    pub(crate) fn number(&self) -> Option<u64>
        ensures { result ≡ front as_number self.now }
    {
        match self.left.first() {
            Some(Lexeme::Number(number)) => Some(*number),
            _ => None,
        }
    }

    /// A quoted text, with each quote in it still doubled.
    pub(crate) fn quoted(&self) -> Option<&'a str>
        ensures { option_map (λ text. undoubled text.now) result ≡ front as_quoted self.now }
    {
        match self.left.first() {
            Some(Lexeme::Quoted(text)) => Some(text),
            _ => None,
        }
    }

    /// Passes one token, where one is left.
    pub(crate) fn advance(&mut self)
        ensures after { self.new ≡ rest self.old }
        ensures within { length self.new ≤ length self.old }
    {
        if !self.left.is_empty() {
            self.left = &self.left[1..];
        }
    }

    // Passes one token, where it is wanted and one is left.
    fn advance_where(&mut self, wanted: bool) -> bool
        ensures same { result ≡ wanted }
        ensures after { self.new ≡ (if wanted then rest self.old else self.old) }
        ensures within { length self.new ≤ length self.old }
    {
        if wanted {
            self.advance();
        }
        wanted
    }

    /// Passes the symbol, where it is the next token.
    pub(crate) fn takes_symbol(&mut self, symbol: Symbol) -> bool
        ensures { Passes (is_symbol symbol) result self.old self.new }
    {
        self.advance_where(self.is_symbol(symbol))
    }

    /// Passes the keyword, where it is the next token.
    pub(crate) fn takes_keyword(&mut self, keyword: Keyword) -> bool
        ensures { Passes (is_keyword keyword) result self.old self.new }
    {
        self.advance_where(self.is_keyword(keyword))
    }
}
