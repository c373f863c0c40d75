use crate::deed::{Deed, change_of};
use crate::halt::Halt;
use crate::letters::{after_words, last_words, number};
use std::alloc::Global;
use std::str;

/// An entry that stands at a member at the end.
#[derive(Clone, Copy)]
pub struct Entry<'a> {
    /// The key and the value.
    pub pair: &'a str,
    pub stamp: &'a str,
}

/// What stands at a member at the end.
#[derive(Drop)]
pub struct Standing<'a> {
    pub member: u64,
    /// Its counts, behind that of its entries.
    pub counts: &'a str,
    pub entries: Vec<Entry<'a>>,
}

/// The history of one member at one shard.
#[derive(Drop)]
pub struct History<'a> {
    pub member: u64,
    pub shard: u64,
    pub deeds: Vec<Deed<'a>>,
}

/// What is drawn of a report.
#[derive(Drop)]
pub struct Report<'a> {
    pub members: Vec<Standing<'a>>,
    pub histories: Vec<History<'a>>,
}

/// Which part of a report comes next.
#[derive(Clone, Copy, PartialEq, Eq)]
enum Stage {
    BeforeRegions,
    /// This many entries of the last member are still to come.
    Entries(u64),
    /// This many deeds of the last history are still to come.
    Deeds(u64),
    End,
}

#[derive(Drop)]
struct Reader<'a> {
    report: Report<'a>,
    stage: Stage,
}

// The member, the number of its entries, and its other counts.
fn member_of(text: &str) -> Option<(u64, u64, &str)> {
    let (member, rest) = text.strip_prefix("member ")?.split_once(" entries ")?;
    let (entries, counts) = rest.split_once(' ')?;
    Some((number(member)?, number(entries)?, counts))
}

// `KEY VALUE STAMP`
fn entry_of(text: &str) -> Option<Entry<'_>> {
    let (pair, stamp) = last_words(text, 1)?;
    after_words(pair, 2)?;
    change_of(stamp)?;
    Some(Entry { pair, stamp })
}

// The member, the shard and the number of deeds of a history's first line.
fn heading(text: &str) -> Option<(u64, u64, u64)> {
    let (member, rest) = text.strip_prefix("history ")?.split_once(' ')?;
    let (shard, deeds) = rest.split_once(' ')?;
    Some((number(member)?, number(shard)?, number(deeds)?))
}

impl<'a> Reader<'a> {
    fn member(&mut self, alloc: Global, line: usize, text: &'a str) -> Result<(), Halt> {
        if text == "histories" {
            self.stage = Stage::Deeds(0);
            return Ok(());
        }
        let (member, due, counts) = member_of(text).ok_or(Halt::Line(line))?;
        self.report.members.push(Standing {
            member,
            counts,
            entries: Vec::new(alloc),
        })?;
        self.stage = Stage::Entries(due);
        Ok(())
    }

    fn entry(&mut self, line: usize, text: &'a str, due: u64) -> Result<(), Halt> {
        let entry = entry_of(text).ok_or(Halt::Line(line))?;
        if let Some(member) = self.report.members.last_mut() {
            member.entries.push(entry)?;
        }
        self.stage = Stage::Entries(due);
        Ok(())
    }

    fn history(&mut self, alloc: Global, line: usize, text: &'a str) -> Result<(), Halt> {
        if text == "end" {
            self.stage = Stage::End;
            return Ok(());
        }
        let (member, shard, due) = heading(text).ok_or(Halt::Line(line))?;
        self.report.histories.push(History {
            member,
            shard,
            deeds: Vec::new(alloc),
        })?;
        self.stage = Stage::Deeds(due);
        Ok(())
    }

    fn deed(&mut self, line: usize, text: &'a str, due: u64) -> Result<(), Halt> {
        let deed = Deed::read(line, text).ok_or(Halt::Line(line))?;
        if let Some(history) = self.report.histories.last_mut() {
            history.deeds.push(deed)?;
        }
        self.stage = Stage::Deeds(due);
        Ok(())
    }

    fn take(&mut self, alloc: Global, line: usize, text: &'a str) -> Result<(), Halt> {
        match self.stage {
            Stage::BeforeRegions => {
                if text == "regions" {
                    self.stage = Stage::Entries(0);
                }
                Ok(())
            }
            Stage::Entries(0) => self.member(alloc, line, text),
            Stage::Entries(due) => self.entry(line, text, due - 1),
            Stage::Deeds(0) => self.history(alloc, line, text),
            Stage::Deeds(due) => self.deed(line, text, due - 1),
            Stage::End => Err(Halt::Line(line)),
        }
    }
}

// The line that has the byte at a place, counted from 1.
fn line_at(bytes: &[u8], place: usize) -> usize {
    let feeds = bytes.iter().take(place).filter(|byte| **byte == b'\n');
    feeds.count().saturating_add(1)
}

// The report with those histories that have deeds, those of a shard together.
fn in_order(mut report: Report<'_>) -> Result<Report<'_>, Halt> {
    report.histories.retain(|history| !history.deeds.is_empty());
    report
        .histories
        .sort_by_key(|history| (history.shard, history.member))?;
    Ok(report)
}

/// What is drawn of a report: the members, and the histories that have deeds, in order of shards and then
/// of members.
pub fn report_of(alloc: Global, bytes: &[u8]) -> Result<Report<'_>, Halt> {
    let text = match str::from_utf8(bytes) {
        Ok(text) => text,
        Err(error) => return Err(Halt::Line(line_at(bytes, error.valid_up_to()))),
    };
    let mut reader = Reader {
        report: Report {
            members: Vec::new(alloc),
            histories: Vec::new(alloc),
        },
        stage: Stage::BeforeRegions,
    };
    let mut count = 0usize;
    for line in text.lines() {
        count = count.saturating_add(1);
        reader.take(alloc, count, line)?;
    }
    match reader.stage {
        Stage::End => in_order(reader.report),
        _ => Err(Halt::Line(count.saturating_add(1))),
    }
}
