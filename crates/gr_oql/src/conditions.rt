//! Conditions: tests under AND, OR, NOT and brackets.

ghost use Rattle.gr_oql.specs.Grammar.{most_depth};
ghost use Rattle.gr_oql.specs.View.{tree_of};
ghost use Rattle.gr_oql.specs.Reader.Gives.{Reads, alias_of};
ghost use Rattle.gr_oql.specs.Reader.Reading.{all_at, any_at, bracket_at, part_at, condition_at, read_as, test_at};
ghost use Rattle.gr_oql.specs.Tree.{test};

use crate::condition::Condition;
use crate::cursor::TokenCursor;
use crate::halt::{Halt, Wrong};
use crate::keyword::Keyword;
use gr_lex::Symbol;

/// The most brackets and NOTs around one condition.
const MOST_DEPTH: u32 = 64;

impl<'a> TokenCursor<'a> {
    // A test as a condition.
    fn tested(&mut self, alias: Option<&str>) -> Result<Condition, Halt>
        ensures { Reads tree_of result self.old self.new (read_as test (test_at (alias_of alias.entry) self.old)) }
    {
        let test = self.test(alias)?;
        Ok(Condition::Test(test))
    }

    // One part of an AND, inside which so many brackets and NOTs may still be opened.
    #[tactic(auto, using(crate::proofs::Trees::part_at_test))]
    #[cycle(conditions)]
    fn part(&mut self, alias: Option<&str>, depth: u32) -> Result<Condition, Halt>
        ensures { Reads tree_of result self.old self.new (part_at (alias_of alias.entry) depth self.old) }
    {
        if depth == 0 {
            if self.is_keyword(Keyword::Not) || self.is_symbol(Symbol::LeftBracket) {
                Err(Halt::Wrong(Wrong::TooDeep))
            } else {
                self.tested(alias)
            }
        } else if self.takes_keyword(Keyword::Not) {
            let negated = self.part(alias, depth - 1)?;
            Ok(Condition::Not(Box::new(self.alloc, negated)?))
        } else if self.takes_symbol(Symbol::LeftBracket) {
            self.bracket(alias, depth - 1)
        } else {
            self.tested(alias)
        }
    }

    // What stands in brackets, and the bracket that ends it.
    #[cycle(conditions)]
    fn bracket(&mut self, alias: Option<&str>, depth: u32) -> Result<Condition, Halt>
        ensures { Reads tree_of result self.old self.new (bracket_at (part_at (alias_of alias.entry) depth) self.old) }
    {
        let condition = self.any(alias, depth)?;
        self.symbol_due(Symbol::RightBracket)?;
        Ok(condition)
    }

    // Parts with AND between them.
    #[cycle(conditions)]
    fn all(&mut self, alias: Option<&str>, depth: u32) -> Result<Condition, Halt>
        ensures { Reads tree_of result self.old self.new (all_at (part_at (alias_of alias.entry) depth) self.old) }
    {
        let mut parts = Vec::new(self.alloc);
        let first = self.part(alias, depth)?;
        parts.push(first)?;
        'parts: while self.takes_keyword(Keyword::And) {
            let next = self.part(alias, depth)?;
            parts.push(next)?;
        }
        Ok(Condition::All(parts))
    }

    // Conditions with OR between them.
    #[cycle(conditions)]
    fn any(&mut self, alias: Option<&str>, depth: u32) -> Result<Condition, Halt>
        ensures { Reads tree_of result self.old self.new (any_at (part_at (alias_of alias.entry) depth) self.old) }
    {
        let mut parts = Vec::new(self.alloc);
        let first = self.all(alias, depth)?;
        parts.push(first)?;
        'parts: while self.takes_keyword(Keyword::Or) {
            let next = self.all(alias, depth)?;
            parts.push(next)?;
        }
        Ok(Condition::Any(parts))
    }

    #[tactic(auto, unfolding(crate::specs::Reader::Reading::condition_at))]
    pub(crate) fn condition(&mut self, alias: Option<&str>) -> Result<Condition, Halt>
        ensures { Reads tree_of result self.old self.new (condition_at most_depth (alias_of alias.entry) self.old) }
    {
        self.any(alias, MOST_DEPTH)
    }
}
