ghost use Rattle.std.specs.Prelude.{◌≡◌, ◌++◌, OnOk, option_copied};
ghost use Rattle.gr_report.specs.Answers.{reply_text, peeked_text, answer_text, answer_line, client_text};

use crate::put::{put_byte, put_number, put_text};
use crate::queries::put_replies;
use crate::written::{Numbered, Written, put_numbered};
use gr_history::{Answer, ClientRecord, Reply};
use gr_value::{Memory, Value};
use std::alloc::Global;

/// Puts the text of a reply last.
#[inline(always)]
pub fn put_reply(alloc: Global, out: &mut Vec<u8>, reply: &Reply) -> Result<(), Memory>
    ensures { OnOk result (out.new.items ≡ out.old.items ++ reply_text reply.now) }
{
    match reply {
        Reply::Null => put_text(out, "null"),
        Reply::Value(value) => value.print_to(alloc, out),
        Reply::Done => put_text(out, "done"),
        Reply::Yes => put_text(out, "true"),
        Reply::No => put_text(out, "false"),
        Reply::NotFound => put_text(out, "not-found"),
        Reply::NotReady => put_text(out, "not-ready"),
        Reply::Limit => put_text(out, "limit"),
    }
}

fn put_peeked(
    alloc: Global,
    out: &mut Vec<u8>,
    value: Option<&Value>,
    at: u64,
) -> Result<(), Memory>
    ensures { OnOk result (out.new.items ≡ out.old.items ++ peeked_text (option_copied value.entry) at) }
{
    match value {
        None => put_text(out, "null")?,
        Some(value) => value.print_to(alloc, out)?,
    }
    put_text(out, " @")?;
    put_number(out, u128::from(at))
}

fn put_answer(alloc: Global, out: &mut Vec<u8>, answer: &Answer) -> Result<(), Memory>
    ensures { OnOk result (out.new.items ≡ out.old.items ++ answer_text answer.now) }
{
    match answer {
        Answer::Reply(reply) => put_reply(alloc, out, reply),
        Answer::Peeked { value, at } => put_peeked(alloc, out, value.as_ref(), *at),
        Answer::Asked(replies) => put_replies(alloc, out, replies.as_slice()),
    }
}

impl Numbered for Answer {
    ghost text = { answer_line };

    #[tactic(auto, unfolding(crate::specs::Answers::answer_line))]
    fn put(&self, alloc: Global, out: &mut Vec<u8>, owner: u8, number: u64) -> Result<(), Memory> {
        put_number(out, u128::from(owner))?;
        put_byte(out, b'.')?;
        put_number(out, u128::from(number))?;
        put_byte(out, b' ')?;
        put_answer(alloc, out, self)?;
        put_byte(out, b'\n')
    }
}

impl Written for ClientRecord {
    ghost text = { client_text };

    fn put(&self, alloc: Global, out: &mut Vec<u8>) -> Result<(), Memory> {
        put_numbered(alloc, out, self.client, 1, self.answers.as_slice())
    }
}
