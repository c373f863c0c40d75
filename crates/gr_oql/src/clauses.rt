//! The clauses of a query, from SELECT to its end.

ghost use Rattle.std.specs.Prelude.{◌≡◌, option_map, IfOk, ◌∷◌};
ghost use Rattle.gr_value.specs.KeyBytes.{IsKey};
ghost use Rattle.gr_oql.specs.Grammar.{most_depth};
ghost use Rattle.gr_oql.specs.Reader.Gives.{Gives, Reads, alias_of};
ghost use Rattle.gr_oql.specs.Reader.Reading.{star_at, region_at, alias_at, end_at, bare_end_at, where_at, source_at, query_at};
ghost use Rattle.gr_oql.specs.View.{tree_of};
ghost use Rattle.gr_oql.specs.Reader.Asking.{asked};
ghost use Rattle.gr_oql.specs.Terminals.{begins, is_tail};

use crate::Part;
use crate::condition::Condition;
use crate::cursor::TokenCursor;
use crate::halt::{Halt, Wrong};
use crate::keyword::Keyword;
use gr_lex::Symbol;
use gr_value::{Key, Memory, Text};
use std::alloc::Global;

/// The most bytes of a region's name, which is a key behind a slash.
const MOST_REGION_BYTES: usize = 254;

/// What a query asks.
#[derive(Drop)]
pub(crate) struct Clauses {
    pub(crate) region: Key,
    pub(crate) alias: Option<Text>,
    pub(crate) condition: Option<Condition>,
}

// A region's name, with a slash before it.
fn region_key(alloc: Global, name: &str) -> Result<Key, Memory>
    requires { IsKey (0x2F ∷ name.now) }
    ensures { IfOk result (λ key. key ≡ 0x2F ∷ name.now) }
{
    let mut bytes = Vec::with_capacity(alloc, name.len() + 1)?;
    bytes.push(b'/')?;
    bytes.extend_from_slice(name.as_bytes())?;
    Ok(Key::of_bytes(alloc, &bytes)?)
}

fn owned(alloc: Global, alias: Option<&str>) -> Result<Option<Text>, Memory>
    ensures { IfOk result (λ text. text ≡ alias_of alias.entry) }
{
    match alias {
        Some(alias) => Ok(Some(Text::new(alloc, alias)?)),
        None => Ok(None),
    }
}

impl<'a> TokenCursor<'a> {
    fn star(&mut self) -> Result<(), Halt>
        ensures { Reads (λ x. x) result self.old self.new (star_at self.old) }
    {
        if self.takes_symbol(Symbol::Star) {
            Ok(())
        } else if self.is_keyword(Keyword::Distinct) {
            Err(Halt::Wrong(Wrong::NotACq(Part::Distinct)))
        } else if self.len() > 0 {
            Err(Halt::Wrong(Wrong::NotACq(Part::Projection)))
        } else {
            Err(Halt::Wrong(Wrong::Expected))
        }
    }

    fn region(&mut self) -> Result<Key, Halt>
        ensures { Reads (λ x. x) result self.old self.new (region_at self.old) }
    {
        match self.name() {
            Some(name) if name.len() <= MOST_REGION_BYTES => {
                let key = region_key(self.alloc, name)?;
                self.advance();
                Ok(key)
            }
            _ => Err(Halt::Wrong(Wrong::Expected)),
        }
    }

    fn alias(&mut self) -> Result<Option<&'a str>, Halt>
        ensures { Reads (option_map (λ x. x.now)) result self.old self.new (alias_at self.old) }
    {
        if self.takes_keyword(Keyword::As) {
            let name = self.name_due()?;
            return Ok(Some(name));
        }
        match self.name() {
            Some(name) => {
                self.advance();
                Ok(Some(name))
            }
            None => Ok(None),
        }
    }

    fn is_tail(&self) -> bool
        ensures { result ≡ begins is_tail self.now }
    {
        self.is_keyword(Keyword::Order)
            || self.is_keyword(Keyword::Group)
            || self.is_keyword(Keyword::Having)
            || self.is_keyword(Keyword::Limit)
    }

    // The end of a query.
    fn end(&self) -> Result<(), Halt>
        ensures { Gives (λ x. x) result self.now (end_at self.now) }
    {
        if self.len() == 0 {
            Ok(())
        } else if self.is_tail() {
            Err(Halt::Wrong(Wrong::NotACq(Part::Tail)))
        } else {
            Err(Halt::Wrong(Wrong::Expected))
        }
    }

    // The end of a query without a condition.
    fn bare_end(&self) -> Result<(), Halt>
        ensures { Gives (λ x. x) result self.now (bare_end_at self.now) }
    {
        if self.is_symbol(Symbol::Comma) {
            Err(Halt::Wrong(Wrong::NotACq(Part::Join)))
        } else {
            self.end()
        }
    }

    // The condition behind WHERE, if there is one, up to the query's end.
    fn condition_to_end(&mut self, alias: Option<&str>) -> Result<Option<Condition>, Halt>
        ensures { Reads (option_map tree_of) result self.old self.new (where_at most_depth (alias_of alias.entry) self.old) }
    {
        if self.takes_keyword(Keyword::Where) {
            let condition = self.condition(alias)?;
            self.end()?;
            Ok(Some(condition))
        } else {
            self.bare_end()?;
            Ok(None)
        }
    }

    // What stands behind the slash.
    fn behind_slash(&mut self) -> Result<Clauses, Halt>
        ensures { Reads asked result self.old self.new (source_at most_depth self.old) }
    {
        let region = self.region()?;
        let alias = self.alias()?;
        let condition = self.condition_to_end(alias)?;
        let alias = owned(self.alloc, alias)?;
        Ok(Clauses {
            region,
            alias,
            condition,
        })
    }

    pub(crate) fn query(&mut self) -> Result<Clauses, Halt>
        ensures { Reads asked result self.old self.new (query_at self.old) }
    {
        if self.is_keyword(Keyword::Import) {
            return Err(Halt::Wrong(Wrong::NotACq(Part::Import)));
        }
        self.keyword_due(Keyword::Select)?;
        self.star()?;
        self.keyword_due(Keyword::From)?;
        self.symbol_due(Symbol::Slash)?;
        self.behind_slash()
    }
}
