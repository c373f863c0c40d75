ghost use Rattle.std.specs.Prelude.{◌≡◌, ◌++◌, ◌∷◌, []};
ghost use Rattle.gr_lex.specs.declared.token.TokenKind.TheVariants as kind;
ghost use Rattle.gr_lex.specs.Bytes.{quote};
ghost use Rattle.gr_lex.specs.Layout.{IsToken, bytes_of};

/// The symbols of a query.
#[derive(Clone, Copy, Debug, PartialEq, Eq)]
pub enum Symbol {
    Star,
    LeftBracket,
    RightBracket,
    Comma,
    Dot,
    Equal,
    Angles,
    BangEqual,
    Less,
    LessEqual,
    Greater,
    GreaterEqual,
    Slash,
    Dollar,
    Minus,
}

#[derive(Clone, Copy, Debug, PartialEq, Eq)]
pub enum TokenKind {
    Word,
    /// With its value.
    Number(u64),
    Quoted,
    Symbol(Symbol),
}

/// A token: the bytes of the text from `start` to before `end`.
#[derive(Clone, Copy, Debug, PartialEq, Eq)]
pub struct Token {
    pub kind: TokenKind,
    pub start: u64,
    pub end: u64,
}

impl Token {
    /// 2 ^ 63, above which no token's number is. A sign before it makes it the least whole number.
    pub const GREATEST_NUMBER: u64 = 9223372036854775808;

    /// The token's own bytes in its text.
    pub fn text<'a>(&self, text: &'a str) -> &'a str
        requires { IsToken text.now self.now }
        ensures { result.now ≡ bytes_of text.now self.now }
    {
        &text[self.start as usize..self.end as usize]
    }

    /// What stands between a quoted text's outer quotes, with each quote in it still doubled.
    pub fn inside<'a>(&self, text: &'a str) -> &'a str
        requires of { IsToken text.now self.now }
        requires quoted { self.now.kind ≡ kind.Quoted }
        ensures { bytes_of text.now self.now ≡ quote ∷ (result.now ++ quote ∷ []) }
    {
        &text[self.start as usize + 1..self.end as usize - 1]
    }
}
