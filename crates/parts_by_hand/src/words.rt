use crate::seen::number_of;
use gr_history::{Image, QueryReply, Reply, Verdict};
use gr_oql::{BaseOp, Event, QueryOp};
use gr_post::Mail;
use gr_value::Value;
use gr_vector::Report;
use std::fmt;

/// A value without fields, or with the field `x` that has this number.
#[derive(Drop)]
pub struct Number(pub Option<i64>);

impl fmt::Display for Number {
    fn fmt<W: fmt::Write>(&self, f: &mut fmt::Formatter<W>) -> fmt::Result {
        match self.0 {
            None => write!(f, "{{}}"),
            Some(number) => write!(f, "{{\"x\":{number}}}"),
        }
    }
}

fn shown(value: &Value) -> Number {
    Number(number_of(value))
}

/// Whether a query runs, if it is open.
pub fn runs_word(runs: Option<bool>) -> &'static str {
    match runs {
        None => "",
        Some(true) => "runs",
        Some(false) => "stopped",
    }
}

fn query_word(op: QueryOp) -> &'static str {
    match op {
        QueryOp::Create => "create",
        QueryOp::Update => "update",
        QueryOp::Destroy => "destroy",
    }
}

fn base_word(op: BaseOp) -> &'static str {
    match op {
        BaseOp::Create => "create",
        BaseOp::Update => "update",
        BaseOp::Destroy => "destroy",
        BaseOp::Invalidate => "invalidate",
    }
}

/// An event of the key.
#[derive(Drop)]
pub struct Happened<'a>(pub &'a Event);

impl fmt::Display for Happened<'_> {
    fn fmt<W: fmt::Write>(&self, f: &mut fmt::Formatter<W>) -> fmt::Result {
        let event = self.0;
        let (op, base) = (query_word(event.op), base_word(event.base));
        match &event.value {
            None => write!(f, " {op} {base} a -"),
            Some(value) => write!(f, " {op} {base} a {}", shown(value)),
        }
    }
}

/// What a client is told of a query.
#[derive(Drop)]
pub struct Answered<'a>(pub &'a QueryReply);

impl fmt::Display for Answered<'_> {
    fn fmt<W: fmt::Write>(&self, f: &mut fmt::Formatter<W>) -> fmt::Result {
        match self.0 {
            QueryReply::Opened(rows) => {
                write!(f, "opened {}", rows.get().len())?;
                for row in rows.get().as_slice() {
                    write!(f, " a {}", shown(&row.value))?;
                }
                Ok(())
            }
            QueryReply::Fetched(events) => {
                write!(f, "fetched {}", events.get().len())?;
                for event in events.get().as_slice() {
                    write!(f, "{}", Happened(event))?;
                }
                Ok(())
            }
            QueryReply::Stopped => write!(f, "stopped"),
            QueryReply::Closed => write!(f, "closed"),
            QueryReply::Unknown => write!(f, "unknown"),
            QueryReply::Taken => write!(f, "taken"),
            QueryReply::NotRunning => write!(f, "not-running"),
        }
    }
}

/// What comes out of an inbox.
#[derive(Drop)]
pub struct Came<'a>(pub &'a Mail);

impl fmt::Display for Came<'_> {
    fn fmt<W: fmt::Write>(&self, f: &mut fmt::Formatter<W>) -> fmt::Result {
        match self.0 {
            Mail::Change { change, .. } => {
                let stamp = &change.get().stamp;
                let (ver, member, rv) = (stamp.ver(), stamp.member(), stamp.rv());
                write!(f, "change {ver}.{member}.{rv}")
            }
            Mail::Report { report, .. } => {
                let Report { member, at, .. } = report.get();
                write!(f, "report {member} at {at}")
            }
            Mail::End => write!(f, "end"),
        }
    }
}

/// What a step answers.
#[derive(Drop)]
pub enum Answer<'a> {
    Reply(&'a Reply),
    Asked(&'a QueryReply),
    Verdict(Verdict),
    Report(&'a Report),
    Heard,
    /// How many tombstones expired.
    Expired(u64),
    /// How many changes were given.
    Own(usize),
    Image(&'a Image),
}

impl fmt::Display for Answer<'_> {
    fn fmt<W: fmt::Write>(&self, f: &mut fmt::Formatter<W>) -> fmt::Result {
        match self {
            Answer::Reply(Reply::Null) => write!(f, "null"),
            Answer::Reply(Reply::Value(value)) => write!(f, "{}", shown(value)),
            Answer::Reply(Reply::Done) => write!(f, "done"),
            Answer::Reply(_) => write!(f, "otherwise"),
            Answer::Asked(reply) => write!(f, "{}", Answered(reply)),
            Answer::Verdict(Verdict::Applied) => write!(f, "applied"),
            Answer::Verdict(Verdict::Discarded) => write!(f, "discarded"),
            Answer::Verdict(Verdict::Repeat) => write!(f, "repeat"),
            Answer::Report(report) => write!(f, "at {} own {}", report.at, report.own),
            Answer::Heard => write!(f, "heard"),
            Answer::Expired(count) => write!(f, "expired {count}"),
            Answer::Own(count) => write!(f, "own {count}"),
            Answer::Image(image) => {
                let (from, at, floor) = (image.from, image.at, image.floor);
                let rows = image.rows.get().len();
                write!(f, "image from {from} at {at} rows {rows} floor {floor}")
            }
        }
    }
}
