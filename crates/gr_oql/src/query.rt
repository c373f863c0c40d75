ghost use Rattle.std.specs.Prelude.{◌≡◌, ◌⊎◌, ◌≤◌, length, drop, IfOk, IfErr, All, List, ℕ, option_map, Ok, Err};
ghost use Rattle.gr_oql.specs.Reader.Answers.{fault_of, answer, answer_of_tokens, Answers};
ghost use Rattle.gr_oql.specs.Reader.Reading.{query_at};
ghost use Rattle.gr_oql.specs.Terminals.{terminals_of};
ghost use Rattle.gr_oql.specs.View.{tree_of};
ghost use Rattle.gr_lex.specs.Layout.{IsToken, IsLaidOut};
ghost use Rattle.gr_oql.specs.Grammar.{Spells};
ghost use Rattle.gr_oql.specs.FirstFault.{IsFault, place_of, named, is_greatest};
ghost use Rattle.gr_oql.specs.Must.{must_of};
ghost use Rattle.gr_oql.specs.Question.{Question};
ghost use Rattle.gr_oql.specs.Reader.Asking.{question};
ghost use Rattle.gr_oql.specs.declared.fault.OqlFault.TheVariants as oql_fault;

use crate::OqlFault;
use crate::clauses::Clauses;
use crate::cursor::TokenCursor;
use crate::halt::{Halt, Wrong};
use crate::lexeme::lexemes;
use crate::must::{Must, MustList, must_of};
use gr_lex::{LexFault, Token, TokenList, tokens};
use gr_value::{Copied, Key, Memory, Text};
use std::alloc::Global;
use std::marker::Model;
use std::sync::Arc;

/// A query. Its parts are shared by its copies.
#[derive(Drop)]
pub struct Query {
    pub(crate) parts: Arc<Parts>,
}

#[derive(Drop)]
pub(crate) struct Parts {
    pub(crate) text: Text,
    pub(crate) clauses: Clauses,
    pub(crate) must: MustList,
}

impl Model for Query {
    ghost use Rattle.std.specs.Prelude.{◌≡◌};
    ghost use Rattle.gr_oql.specs.Question.{Question, question_code};
    ghost use Rattle.gr_oql.specs.Grammar.{Spells};
    ghost use Rattle.gr_oql.specs.Must.{must_of};
    ghost use Rattle.gr_oql.specs.Reader.Asking.{question};

    ghost Value = { Question };

    ghost coded = { question_code };

    ghost view = { λ q. question q.parts.value.text q.parts.value.clauses };

    // The text spells what the query asks, and what a value must have is kept.
    ghost invariant = { λ q. Spells q.parts.value.text (question q.parts.value.text q.parts.value.clauses)
        × (q.parts.value.must ≡ must_of (question q.parts.value.text q.parts.value.clauses)) };
}

// The first byte of the first of the tokens, or the end of the text.
fn place_of(text: &str, tokens: &[Token]) -> u64
    ensures { result ≡ place_of text.now tokens.now }
{
    match tokens.first() {
        Some(token) => token.start,
        None => text.len() as u64,
    }
}

fn named(wrong: Wrong, place: u64) -> OqlFault
    ensures { result ≡ named wrong place }
{
    match wrong {
        Wrong::Expected => OqlFault::Expected(place),
        Wrong::NotACq(part) => OqlFault::NotACq(place, part),
        Wrong::TooDeep => OqlFault::TooDeep(place),
    }
}

fn is_greatest(number: Option<u64>) -> bool
    ensures { result ≡ is_greatest number }
{
    match number {
        Some(number) => number == Token::GREATEST_NUMBER,
        None => false,
    }
}

// The fault of a text whose tokens cease to begin a query where the cursor stands.
fn fault_of(text: &str, tokens: &[Token], left: &TokenCursor, wrong: Wrong) -> OqlFault
    requires { length left.now ≤ length tokens.now }
    ensures { result ≡ fault_of text.now tokens.now wrong left.now }
{
    let place = place_of(text, &tokens[tokens.len() - left.len()..]);
    if is_greatest(left.number()) {
        OqlFault::Lex(LexFault::NumberTooLarge(place))
    } else {
        named(wrong, place)
    }
}

fn query_of(alloc: Global, text: &str, clauses: Clauses) -> Result<Query, Memory>
    requires { Spells text.now (question text.now clauses) }
    ensures { IfOk result (λ q. q ≡ question text.now clauses) }
{
    let must = must_of(alloc, &clauses)?;
    let parts = Parts {
        text: Text::new(alloc, text)?,
        clauses,
        must,
    };
    Ok(Query {
        parts: Arc::new(alloc, parts)?,
    })
}

// What the tokens of a text ask.
fn asked_by(alloc: Global, text: &str, tokens: &[Token]) -> Result<Query, OqlFault>
    requires each { All (IsToken text.now) tokens.now }
    requires laid_out { IsLaidOut text.now 0 tokens.now }
    ensures { Answers result (answer text.now tokens.now (query_at (terminals_of text.now tokens.now))) }
{
    let lexemes = lexemes(alloc, text, tokens)?;
    let mut cursor = TokenCursor::new(alloc, &lexemes);
    match cursor.query() {
        Ok(clauses) => Ok(query_of(alloc, text, clauses)?),
        Err(Halt::Memory) => Err(OqlFault::Memory),
        Err(Halt::Wrong(wrong)) => Err(fault_of(text, tokens, &cursor, wrong)),
    }
}

// What a text asks, by its tokens or their fault.
fn asked(alloc: Global, text: &str, lexed: Result<TokenList, LexFault>) -> Result<Query, OqlFault>
    requires each { IfOk lexed (λ ts. All (IsToken text.now) ts) }
    requires laid_out { IfOk lexed (λ ts. IsLaidOut text.now 0 ts) }
    ensures { Answers result (answer_of_tokens text.now lexed) }
{
    match lexed {
        Ok(tokens) => asked_by(alloc, text, tokens.as_slice()),
        Err(LexFault::Memory) => Err(OqlFault::Memory),
        Err(fault) => Err(OqlFault::Lex(fault)),
    }
}

impl Query {
    /// Reads a query. A fault of its tokens comes before any other.
    #[tactic(auto, using(crate::proofs::Exact::spelled, crate::proofs::Exact::stops))]
    pub fn parse(alloc: Global, text: &str) -> Result<Query, OqlFault>
        // What is read is spelled so.
        ensures spelled { IfOk result (Spells text.now) }
        // What is spelled so is read, unless memory is refused.
        ensures only { (q : Question) → Spells text.now q → (result ≡ Ok q) ⊎ (result ≡ Err oql_fault.Memory) }
        // A fault is the first that the grammar has, at the first token with which no query goes on.
        ensures stops { IfErr result (λ fault. (fault ≡ oql_fault.Memory) ⊎ IsFault text.now fault) }
        // A text with such a fault has that answer, unless memory is refused.
        ensures only_fault { (fault : OqlFault) → IsFault text.now fault → (result ≡ Err fault) ⊎ (result ≡ Err oql_fault.Memory) }
    {
        let lexed = tokens(alloc, text);
        asked(alloc, text, lexed)
    }

    /// The region's name, with a slash before it.
    pub fn region(&self) -> &Key
        ensures { result.now ≡ self.now.asked.region }
    {
        &self.parts.clauses.region
    }

    /// The parts of its condition that set a field equal to a literal and are the condition or joined
    /// to it by AND alone, from left to right.
    pub fn must(&self) -> &[Must]
        ensures { result.now ≡ must_of self.now }
    {
        self.parts.must.as_slice()
    }

    /// The text that was read. Read again it gives this query.
    pub fn text(&self) -> &str
        ensures text { result.now ≡ self.now.text }
        ensures spelled { Spells self.now.text self.now }
    {
        self.parts.text.as_str()
    }
}

impl Copied for Query {
    fn copy(&self, _: Global) -> Result<Query, Memory> {
        Ok(Query {
            parts: Arc::try_clone(&self.parts)?,
        })
    }
}
