ghost use Rattle.std.specs.Prelude.{◌≡◌, map, string_bytes};
ghost use Rattle.gr_oql.specs.Questions.{question_of};
ghost use Rattle.gr_top.specs.Words.{asked_events, behind_ask, behind_events, behind_member, number_in, question_by, Understands, unread};

use crate::Cause;
use crate::words::{Mode, alone, understood};
use gr_ask::Wanted;
use gr_oql::{OqlFault, Query, texts_ask_by_the_grammar};
use gr_script::number_of;
use std::alloc::Global;

// The number of a member that a word spells.
fn member_in(word: &str) -> Option<u8>
    ensures { result ≡ number_in 8 word.now }
{
    match number_of(word.as_bytes()) {
        Some(number) if 1 <= number && number <= 8 => Some(number as u8),
        _ => None,
    }
}

// What is told where the third word isn't read as a query.
fn unread(fault: OqlFault) -> Cause
    ensures { result ≡ unread fault }
{
    match fault {
        OqlFault::Memory => Cause::Memory,
        OqlFault::Lex(_) | OqlFault::Expected(_) | OqlFault::NotACq(..) | OqlFault::TooDeep(_) => {
            Cause::Usage(2)
        }
    }
}

// The query that the third word asks.
fn question_by(alloc: Global, text: &str) -> Result<Query, Cause>
    ensures { Understands (question_by (question_of text.now)) result }
{
    texts_ask_by_the_grammar();
    match Query::parse(alloc, text) {
        Ok(query) => Ok(query),
        Err(fault) => Err(unread(fault)),
    }
}

fn behind_member(alloc: Global, member: Option<u8>, words: &[String]) -> Result<Mode, Cause>
    ensures { Understands (behind_member member (map (λ word. string_bytes word) words.now)) result }
{
    let Some(member) = member else {
        return Err(Cause::Usage(1));
    };
    let [text, rest @ ..] = words else {
        return Err(Cause::Usage(2));
    };
    let wanted = Wanted::Rows(question_by(alloc, text.as_str())?);
    understood(alone(3, Mode::At { member, wanted }, rest))
}

/// What is asked for behind `ask`.
pub(crate) fn behind_ask(alloc: Global, words: &[String]) -> Result<Mode, Cause>
    ensures { Understands (behind_ask (map (λ word. string_bytes word) words.now)) result }
{
    match words {
        [] => Err(Cause::Usage(1)),
        [word, rest @ ..] => behind_member(alloc, member_in(word.as_str()), rest),
    }
}

fn asked_events(member: Option<u8>, words: &[String]) -> Result<Mode, u32>
    ensures { result ≡ asked_events member (map (λ word. string_bytes word) words.now) }
{
    let Some(member) = member else {
        return Err(1);
    };
    let wanted = Wanted::Events;
    alone(2, Mode::At { member, wanted }, words)
}

/// What is asked for behind `events`.
pub(crate) fn behind_events(words: &[String]) -> Result<Mode, u32>
    ensures { result ≡ behind_events (map (λ word. string_bytes word) words.now) }
{
    match words {
        [] => Err(1),
        [word, rest @ ..] => asked_events(member_in(word.as_str()), rest),
    }
}
