//! Tests of one value: a relation, a pattern, a set, and whether a field is there.

ghost use Rattle.std.specs.Prelude.{◌≡◌};
ghost use Rattle.gr_oql.specs.Grammar.{has_backslash};
ghost use Rattle.gr_oql.specs.Reader.Gives.{Reads, alias_of};
ghost use Rattle.gr_oql.specs.Reader.Reading.{relation_at, pattern_by, like_at, separated_at, literal_at, among_at, compare_at};
ghost use Rattle.gr_oql.specs.Reader.Reading.{behind_operand, behind_first, bracketed_at, test_at};
ghost use Rattle.gr_oql.specs.Terminals.{is_symbol, front, as_quoted};
ghost use Rattle.gr_lex.specs.declared.token.Symbol.TheVariants as symbols;

use crate::Part;
use crate::condition::{Operand, Relation, Test};
use crate::cursor::TokenCursor;
use crate::halt::{Halt, Wrong};
use crate::keyword::Keyword;
use crate::terms::unquoted;
use gr_lex::Symbol;
use gr_value::{ItemList, Scalar, Text};

fn has_backslash(text: &str) -> bool
    ensures { result ≡ has_backslash text.now }
{
    text.as_bytes().contains(&b'\\')
}

impl<'a> TokenCursor<'a> {
    fn relation(&mut self) -> Result<Relation, Halt>
        ensures { Reads (λ x. x) result self.old self.new (relation_at self.old) }
    {
        if self.takes_symbol(Symbol::Equal) {
            Ok(Relation::Equal)
        } else if self.takes_symbol(Symbol::Angles) || self.takes_symbol(Symbol::BangEqual) {
            Ok(Relation::Different)
        } else if self.takes_symbol(Symbol::Less) {
            Ok(Relation::Less)
        } else if self.takes_symbol(Symbol::LessEqual) {
            Ok(Relation::LessOrEqual)
        } else if self.takes_symbol(Symbol::Greater) {
            Ok(Relation::Greater)
        } else if self.takes_symbol(Symbol::GreaterEqual) {
            Ok(Relation::GreaterOrEqual)
        } else {
            Err(Halt::Wrong(Wrong::Expected))
        }
    }

    // The pattern behind LIKE.
    fn pattern(&mut self) -> Result<Text, Halt>
        ensures { Reads (λ x. x) result self.old self.new (pattern_by (front as_quoted self.old) self.old) }
    {
        match self.quoted() {
            Some(inside) => {
                let text = unquoted(self.alloc, inside)?;
                if has_backslash(text.as_str()) {
                    Err(Halt::Wrong(Wrong::NotACq(Part::Escape)))
                } else {
                    self.advance();
                    Ok(text)
                }
            }
            None => Err(Halt::Wrong(Wrong::Expected)),
        }
    }

    fn like(&mut self, field: Text) -> Result<Test, Halt>
        ensures { Reads (λ x. x) result self.old self.new (like_at field self.old) }
    {
        let pattern = self.pattern()?;
        Ok(Test::Like { field, pattern })
    }

    // Literals with commas between them.
    fn literals(&mut self) -> Result<ItemList<Scalar>, Halt>
        ensures { Reads (λ x. x) result self.old self.new (separated_at (is_symbol symbols.Comma) literal_at self.old) }
    {
        let mut found = ItemList::new(self.alloc)?;
        let first = self.literal()?;
        found.push(first)?;
        'items: while self.takes_symbol(Symbol::Comma) {
            let next = self.literal()?;
            found.push(next)?;
        }
        Ok(found)
    }

    // The set that an operand is to be among.
    fn among(&mut self, operand: Operand) -> Result<Test, Halt>
        ensures { Reads (λ x. x) result self.old self.new (among_at operand self.old) }
    {
        self.keyword_due(Keyword::Set)?;
        self.symbol_due(Symbol::LeftBracket)?;
        let literals = self.literals()?;
        self.symbol_due(Symbol::RightBracket)?;
        Ok(Test::Among { operand, literals })
    }

    fn compare(&mut self, alias: Option<&str>, left: Operand) -> Result<Test, Halt>
        ensures { Reads (λ x. x) result self.old self.new (compare_at (alias_of alias.entry) left self.old) }
    {
        let relation = self.relation()?;
        let right = self.operand(alias)?;
        Ok(Test::Compare {
            left,
            relation,
            right,
        })
    }

    fn behind_operand(&mut self, alias: Option<&str>, left: Operand) -> Result<Test, Halt>
        ensures { Reads (λ x. x) result self.old self.new (behind_operand (alias_of alias.entry) left self.old) }
    {
        if self.takes_keyword(Keyword::In) {
            self.among(left)
        } else {
            self.compare(alias, left)
        }
    }

    // What stands behind a test's first operand.
    fn behind_first(&mut self, alias: Option<&str>, left: Operand) -> Result<Test, Halt>
        ensures { Reads (λ x. x) result self.old self.new (behind_first (alias_of alias.entry) left self.old) }
    {
        match left {
            Operand::Field(field) => {
                if self.takes_keyword(Keyword::Like) {
                    self.like(field)
                } else {
                    self.behind_operand(alias, Operand::Field(field))
                }
            }
            Operand::Literal(literal) => self.behind_operand(alias, Operand::Literal(literal)),
        }
    }

    // A field in brackets.
    fn bracketed(&mut self, alias: Option<&str>) -> Result<Text, Halt>
        ensures { Reads (λ x. x) result self.old self.new (bracketed_at (alias_of alias.entry) self.old) }
    {
        self.symbol_due(Symbol::LeftBracket)?;
        let field = Text::new(self.alloc, self.field(alias)?)?;
        self.symbol_due(Symbol::RightBracket)?;
        Ok(field)
    }

    pub(crate) fn test(&mut self, alias: Option<&str>) -> Result<Test, Halt>
        ensures { Reads (λ x. x) result self.old self.new (test_at (alias_of alias.entry) self.old) }
    {
        if self.takes_keyword(Keyword::IsDefined) {
            Ok(Test::Defined(self.bracketed(alias)?))
        } else if self.takes_keyword(Keyword::IsUndefined) {
            Ok(Test::Undefined(self.bracketed(alias)?))
        } else {
            let left = self.operand(alias)?;
            self.behind_first(alias, left)
        }
    }
}
