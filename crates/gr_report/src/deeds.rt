ghost use Rattle.std.specs.Prelude.{◌≡◌, ◌++◌, ◌∷◌, [], codes, OnOk, option_copied};
ghost use Rattle.gr_report.specs.Deeds.{made_text, kind_text, verdict_text, what_text};
ghost use Rattle.gr_report.specs.Deeds.{asked_text, told_text, taken_text, image_text, report_text, heard_text, swept_text, deed_text};
ghost use Rattle.gr_report.specs.Deeds.{deed_line};

use crate::answers::put_reply;
use crate::lists::{put_keys, put_list};
use crate::put::{put_counted, put_number, put_text};
use crate::queries::{put_query_step, put_shard_line};
use crate::regions::put_stamp;
use crate::written::Written;
use gr_history::{Ask, Deed, Entry, Image, Reply, Verdict, What, lent};
use gr_script::put_ask;
use gr_stamp::{Change, Kind};
use gr_value::{Key, KeyList, Memory, Value};
use gr_vector::Report;
use std::alloc::Global;

fn put_made(out: &mut Vec<u8>, made: Option<&Change>, to: u8) -> Result<(), Memory>
    ensures { OnOk result (out.new.items ≡ out.old.items ++ made_text (option_copied made.entry) to) }
{
    let Some(change) = made else {
        return Ok(());
    };
    put_text(out, " made ")?;
    put_stamp(out, &change.stamp)?;
    put_text(out, " to ")?;
    put_list(out, to)
}

fn put_kind(alloc: Global, out: &mut Vec<u8>, kind: &Kind) -> Result<(), Memory>
    ensures { OnOk result (out.new.items ≡ out.old.items ++ kind_text kind.now) }
{
    match kind {
        Kind::Put(value) => {
            put_text(out, " put ")?;
            value.print_to(alloc, out)?;
            put_text(out, " ")
        }
        Kind::Invalid => put_text(out, " invalid "),
        Kind::Remove => put_text(out, " remove "),
    }
}

fn put_verdict(out: &mut Vec<u8>, verdict: Verdict) -> Result<(), Memory>
    ensures { OnOk result (out.new.items ≡ out.old.items ++ verdict_text verdict) }
{
    match verdict {
        Verdict::Applied => put_text(out, " applied"),
        Verdict::Discarded => put_text(out, " discarded"),
        Verdict::Repeat => put_text(out, " repeat"),
    }
}

fn put_what(out: &mut Vec<u8>, what: What) -> Result<(), Memory>
    ensures { OnOk result (out.new.items ≡ out.old.items ++ what_text what) }
{
    match what {
        What::Image => put_text(out, " image"),
        What::Own => put_text(out, " own"),
    }
}

// Which step of which client it was, and what was asked.
fn put_asked(
    alloc: Global,
    out: &mut Vec<u8>,
    client: u8,
    seq: u32,
    ask: &Ask,
) -> Result<(), Memory>
    ensures { OnOk result (out.new.items ≡ out.old.items ++ asked_text client seq ask.now) }
{
    put_counted(out, "call ", u128::from(client))?;
    put_counted(out, ".", u128::from(seq))?;
    put_text(out, " ")?;
    put_ask(alloc, ask, out)
}

#[tactic(auto, unfolding(crate::specs::Deeds::taken_text))]
fn put_taken(
    alloc: Global,
    out: &mut Vec<u8>,
    change: &Change,
    verdict: Verdict,
) -> Result<(), Memory>
    ensures { OnOk result (out.new.items ≡ out.old.items ++ taken_text change.now verdict) }
{
    put_text(out, "take ")?;
    out.extend_from_slice(change.key.bytes())?;
    put_kind(alloc, out, &change.kind)?;
    put_stamp(out, &change.stamp)?;
    put_verdict(out, verdict)
}

#[tactic(auto, unfolding(crate::specs::Deeds::image_text))]
fn put_image(out: &mut Vec<u8>, image: &Image) -> Result<(), Memory>
    ensures { OnOk result (out.new.items ≡ out.old.items ++ image_text image.now) }
{
    put_counted(out, "image from ", u128::from(image.from))?;
    put_counted(out, " at ", u128::from(image.at))?;
    put_counted(out, " rows ", image.rows.get().len() as u128)?;
    put_counted(out, " floor ", u128::from(image.floor))
}

// The place at which a report was made, and what its member had made by then.
fn put_report(out: &mut Vec<u8>, report: &Report) -> Result<(), Memory>
    ensures { OnOk result (out.new.items ≡ out.old.items ++ report_text report.now) }
{
    put_counted(out, " at ", u128::from(report.at))?;
    put_counted(out, " own ", u128::from(report.own))
}

fn put_heard(out: &mut Vec<u8>, report: &Report) -> Result<(), Memory>
    ensures { OnOk result (out.new.items ≡ out.old.items ++ heard_text report.now) }
{
    put_counted(out, "heard ", u128::from(report.member))?;
    put_report(out, report)
}

fn put_swept(out: &mut Vec<u8>, moment: u64, expired: &KeyList) -> Result<(), Memory>
    ensures { OnOk result (out.new.items ≡ out.old.items ++ swept_text moment expired.now) }
{
    put_counted(out, "sweep ", u128::from(moment))?;
    put_counted(out, " expired ", expired.len() as u128)?;
    put_keys(out, expired.as_slice())
}

fn put_deed(alloc: Global, out: &mut Vec<u8>, deed: &Deed) -> Result<(), Memory>
    ensures { OnOk result (out.new.items ≡ out.old.items ++ deed_text deed.now) }
{
    match deed {
        Deed::Call {
            client,
            seq,
            ask,
            reply,
            made: change,
            to,
        } => {
            put_asked(alloc, out, *client, *seq, ask)?;
            put_told(alloc, out, reply, lent(change.as_ref()), *to)
        }
        Deed::Asked {
            client,
            seq,
            ask,
            reply,
        } => {
            put_query_step(out, *client, *seq, ask)?;
            put_text(out, " -> ")?;
            put_shard_line(out, reply)
        }
        Deed::Taken { change, verdict } => put_taken(alloc, out, change.get(), *verdict),
        Deed::Gave { to, what } => {
            put_counted(out, "gave ", u128::from(*to))?;
            put_what(out, *what)
        }
        Deed::Imaged { image } => put_image(out, image),
        Deed::Reported { report } => {
            put_text(out, "report")?;
            put_report(out, report)
        }
        Deed::Heard { report } => put_heard(out, report),
        Deed::Swept { moment, expired } => put_swept(out, *moment, expired),
    }
}

// What was replied, and what was made.
fn put_told(
    alloc: Global,
    out: &mut Vec<u8>,
    reply: &Reply,
    made: Option<&Change>,
    to: u8,
) -> Result<(), Memory>
    ensures { OnOk result (out.new.items ≡ out.old.items ++ told_text reply.now (option_copied made.entry) to) }
{
    put_text(out, " -> ")?;
    put_reply(alloc, out, reply)?;
    put_made(out, made, to)
}

impl Written for Entry {
    ghost text = { deed_line };

    fn put(&self, alloc: Global, out: &mut Vec<u8>) -> Result<(), Memory> {
        put_deed(alloc, out, &self.deed(alloc)?)?;
        put_text(out, "\n")
    }
}
