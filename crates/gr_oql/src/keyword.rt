ghost use Rattle.std.specs.Prelude.{◌≡◌};
ghost use Rattle.std.specs.Str.{str_eq_ignore_ascii_case};
ghost use Rattle.gr_oql.specs.Words.{letters, keyword_of, keyword_eq};

/// The words that a query's language keeps for itself.
#[derive(Clone, Copy, Debug, PartialEq, Eq)]
pub(crate) enum Keyword {
    Select,
    Distinct,
    From,
    As,
    Where,
    And,
    Or,
    Not,
    In,
    Set,
    Like,
    True,
    False,
    Null,
    Undefined,
    IsDefined,
    IsUndefined,
    Order,
    Group,
    Having,
    Limit,
    Import,
}

const ALL: [Keyword; 22] = [
    Keyword::Select,
    Keyword::Distinct,
    Keyword::From,
    Keyword::As,
    Keyword::Where,
    Keyword::And,
    Keyword::Or,
    Keyword::Not,
    Keyword::In,
    Keyword::Set,
    Keyword::Like,
    Keyword::True,
    Keyword::False,
    Keyword::Null,
    Keyword::Undefined,
    Keyword::IsDefined,
    Keyword::IsUndefined,
    Keyword::Order,
    Keyword::Group,
    Keyword::Having,
    Keyword::Limit,
    Keyword::Import,
];

impl Keyword {
    /// The keyword that a word is, in whatever case it is written.
    pub(crate) fn of(word: &str) -> Option<Keyword>
        ensures { result ≡ keyword_of word.now }
    {
        ALL.iter()
            .copied()
            .find(|keyword| same_word(word, keyword.letters()))
    }

    pub(crate) fn is(self, other: Keyword) -> bool
        ensures { result ≡ keyword_eq self other }
    {
        self == other
    }

    fn letters(self) -> &'static str
        ensures { result.now ≡ letters self }
    {
        match self {
            Keyword::Select => "SELECT",
            Keyword::Distinct => "DISTINCT",
            Keyword::From => "FROM",
            Keyword::As => "AS",
            Keyword::Where => "WHERE",
            Keyword::And => "AND",
            Keyword::Or => "OR",
            Keyword::Not => "NOT",
            Keyword::In => "IN",
            Keyword::Set => "SET",
            Keyword::Like => "LIKE",
            Keyword::True => "TRUE",
            Keyword::False => "FALSE",
            Keyword::Null => "NULL",
            Keyword::Undefined => "UNDEFINED",
            Keyword::IsDefined => "IS_DEFINED",
            Keyword::IsUndefined => "IS_UNDEFINED",
            Keyword::Order => "ORDER",
            Keyword::Group => "GROUP",
            Keyword::Having => "HAVING",
            Keyword::Limit => "LIMIT",
            Keyword::Import => "IMPORT",
        }
    }
}

fn same_word(word: &str, letters: &str) -> bool
    ensures { result ≡ str_eq_ignore_ascii_case word.now letters.now }
{
    word.eq_ignore_ascii_case(letters)
}
