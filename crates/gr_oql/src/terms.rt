//! Fields, literals and operands.

ghost use Rattle.std.specs.Prelude.{◌≡◌, ℤ, pos, neg_ℤ, nat_le, if◌then◌else◌, Some, None, Ok, Err, IfOk, MatchOption};
ghost use Rattle.gr_lex.specs.Bytes.{greatest_number};
ghost use Rattle.gr_oql.specs.Grammar.{is_alias};
ghost use Rattle.gr_oql.specs.Reader.Gives.{Reads, alias_of};
ghost use Rattle.gr_oql.specs.Reader.Reading.{symbol_at, keyword_at, word_by, name_at, member_at, field_of_name, field_at};
ghost use Rattle.gr_oql.specs.Reader.Reading.{negative_at, literal_at, operand_at, missing, plain_by};
ghost use Rattle.gr_oql.specs.declared.halt.Halt.TheVariants as halts;
ghost use Rattle.gr_oql.specs.declared.halt.Wrong.TheVariants.{Expected};
ghost use Rattle.gr_oql.specs.Terminals.{undoubled, front, as_number, as_quoted, SplitsAtQuotes};

use crate::Part;
use crate::condition::Operand;
use crate::cursor::TokenCursor;
use crate::halt::{Halt, Wrong};
use crate::keyword::Keyword;
use gr_lex::{Symbol, Token};
use gr_value::{Memory, Scalar, Text};
use std::alloc::Global;

// Nothing, where what is due was found.
fn due(found: bool) -> Result<(), Halt>
    ensures { result ≡ (if found then Ok tt else Err (halts.Wrong Expected)) }
{
    if found {
        Ok(())
    } else {
        Err(Halt::Wrong(Wrong::Expected))
    }
}

fn is_alias(alias: Option<&str>, word: &str) -> bool
    ensures { result ≡ is_alias (alias_of alias.entry) word.now }
{
    match alias {
        Some(alias) => alias == word,
        None => false,
    }
}

// What stands before the first two quotes, and behind them.
fn split_at_quotes(text: &str) -> Option<(&str, &str)>
    ensures { MatchOption result (undoubled text.now ≡ text.now) (λ parts. SplitsAtQuotes text.now parts.0.now parts.1.now) }
{
    match text.split_once('\'') {
        Some((before, behind)) => match behind.strip_prefix('\'') {
            Some(more) => Some((before, more)),
            None => Some((before, behind)),
        },
        None => None,
    }
}

/// The text that stands between quotes, with one quote for each two.
pub(crate) fn unquoted(alloc: Global, inside: &str) -> Result<Text, Memory>
    ensures { IfOk result (λ text. text ≡ undoubled inside.now) }
{
    let mut text = String::new(alloc);
    let mut left = inside;
    while let Some((before, behind)) = split_at_quotes(left) {
        text.push_str(before)?;
        text.push('\'')?;
        left = behind;
    }
    text.push_str(left)?;
    Text::new(alloc, text.as_str())
}

// The number behind a sign.
fn negated(number: u64) -> Option<i64>
    ensures { result ≡ (if nat_le number greatest_number then Some (neg_ℤ (pos number)) else None) }
{
    if number < Token::GREATEST_NUMBER {
        Some(-(number as i64))
    } else if number == Token::GREATEST_NUMBER {
        Some(i64::MIN)
    } else {
        None
    }
}

impl<'a> TokenCursor<'a> {
    pub(crate) fn symbol_due(&mut self, symbol: Symbol) -> Result<(), Halt>
        ensures { Reads (λ x. x) result self.old self.new (symbol_at symbol self.old) }
    {
        due(self.takes_symbol(symbol))
    }

    pub(crate) fn keyword_due(&mut self, keyword: Keyword) -> Result<(), Halt>
        ensures { Reads (λ x. x) result self.old self.new (keyword_at keyword self.old) }
    {
        due(self.takes_keyword(keyword))
    }

    // The word that stands there, if one does, which is due.
    fn word_due(&mut self, word: Option<&'a str>) -> Result<&'a str, Halt>
        ensures { Reads (λ x. x.now) result self.old self.new (word_by (alias_of word.entry) self.old) }
    {
        match word {
            Some(word) => {
                self.advance();
                Ok(word)
            }
            None => Err(Halt::Wrong(Wrong::Expected)),
        }
    }

    pub(crate) fn name_due(&mut self) -> Result<&'a str, Halt>
        ensures { Reads (λ x. x.now) result self.old self.new (name_at self.old) }
    {
        let word = self.name();
        self.word_due(word)
    }

    // The member behind an alias.
    fn member(&mut self) -> Result<&'a str, Halt>
        ensures { Reads (λ x. x.now) result self.old self.new (member_at self.old) }
    {
        self.symbol_due(Symbol::Dot)?;
        let word = self.word();
        self.word_due(word)
    }

    // The field that a name begins.
    fn field_of_name(&mut self, alias: Option<&str>, word: &'a str) -> Result<&'a str, Halt>
        ensures { Reads (λ x. x.now) result self.old self.new (field_of_name (alias_of alias.entry) word.now self.old) }
    {
        if is_alias(alias, word) {
            self.member()
        } else {
            Ok(word)
        }
    }

    pub(crate) fn field(&mut self, alias: Option<&str>) -> Result<&'a str, Halt>
        ensures { Reads (λ x. x.now) result self.old self.new (field_at (alias_of alias.entry) self.old) }
    {
        match self.name() {
            Some(word) => {
                self.advance();
                self.field_of_name(alias, word)
            }
            None => Err(Halt::Wrong(Wrong::Expected)),
        }
    }

    fn negative(&mut self) -> Result<Scalar, Halt>
        ensures { Reads (λ x. x) result self.old self.new (negative_at self.old) }
    {
        match self.number() {
            Some(number) => match negated(number) {
                Some(whole) => {
                    self.advance();
                    Ok(Scalar::Int(whole))
                }
                None => Err(Halt::Wrong(Wrong::Expected)),
            },
            None => Err(Halt::Wrong(Wrong::Expected)),
        }
    }

    // What is wrong where an operand or a literal is due.
    fn missing(&self) -> Wrong
        ensures { result ≡ missing self.now }
    {
        if self.is_symbol(Symbol::Dollar) {
            Wrong::NotACq(Part::Bind)
        } else {
            Wrong::Expected
        }
    }

    // A number or a text.
    fn plain(&mut self) -> Result<Scalar, Halt>
        ensures { Reads (λ x. x) result self.old self.new (plain_by (front as_number self.old) (front as_quoted self.old) self.old) }
    {
        if let Some(number) = self.number() {
            if number < Token::GREATEST_NUMBER {
                self.advance();
                Ok(Scalar::Int(number as i64))
            } else {
                Err(Halt::Wrong(Wrong::Expected))
            }
        } else if let Some(inside) = self.quoted() {
            let text = unquoted(self.alloc, inside)?;
            self.advance();
            Ok(Scalar::Text(text))
        } else {
            Err(Halt::Wrong(self.missing()))
        }
    }

    pub(crate) fn literal(&mut self) -> Result<Scalar, Halt>
        ensures { Reads (λ x. x) result self.old self.new (literal_at self.old) }
    {
        if self.takes_symbol(Symbol::Minus) {
            self.negative()
        } else if self.takes_keyword(Keyword::True) {
            Ok(Scalar::Bool(true))
        } else if self.takes_keyword(Keyword::False) {
            Ok(Scalar::Bool(false))
        } else if self.takes_keyword(Keyword::Null) {
            Ok(Scalar::Null)
        } else {
            self.plain()
        }
    }

    pub(crate) fn operand(&mut self, alias: Option<&str>) -> Result<Operand, Halt>
        ensures { Reads (λ x. x) result self.old self.new (operand_at (alias_of alias.entry) self.old) }
    {
        match self.name() {
            Some(word) => {
                self.advance();
                let field = self.field_of_name(alias, word)?;
                Ok(Operand::Field(Text::new(self.alloc, field)?))
            }
            None => Ok(Operand::Literal(self.literal()?)),
        }
    }
}
