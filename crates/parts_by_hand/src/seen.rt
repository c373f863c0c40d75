use crate::stop::Stop;
use crate::words::{Number, runs_word};
use gr_history::History;
use gr_slots::{Slot, Slots};
use gr_value::{Key, Scalar, Value};
use gr_vector::Vector;
use std::fmt;

/// What stands at the key: its stamp, since when, and the value's number, where a value with one stands.
#[derive(Clone, Copy, PartialEq)]
pub struct Standing {
    ver: u64,
    member: u8,
    rv: u64,
    since: u64,
    is_there: bool,
    number: Option<i64>,
}

/// What can be seen of a shard without memory.
#[derive(Clone, Copy, PartialEq)]
pub struct Seen {
    deeds: u64,
    discarded: u64,
    repeats: u64,
    floor: u64,
    standing: Option<Standing>,
    tombstones: u64,
    tops: [u64; 3],
    gaps: [u64; 3],
}

/// What can be seen of the parts without memory: what a shard has, whether what stands is stable, and
/// whether the queries `p` and `q` run, of those that are open.
#[derive(Clone, Copy, PartialEq)]
pub struct Beside {
    pub seen: Seen,
    pub stable: bool,
    pub p: Option<bool>,
    pub q: Option<bool>,
}

/// The number in the field `x` of a value.
pub fn number_of(value: &Value) -> Option<i64> {
    match value.field("x") {
        Some(Scalar::Int(number)) => Some(*number),
        _ => None,
    }
}

impl Standing {
    fn of(slot: &Slot) -> Standing {
        let stamp = &slot.stamp;
        Standing {
            ver: stamp.ver(),
            member: stamp.member(),
            rv: stamp.rv(),
            since: slot.taken_at,
            is_there: slot.is_there(),
            number: slot.value().and_then(number_of),
        }
    }
}

impl Seen {
    pub fn of(history: &History, slots: &Slots, vector: &Vector, floor: u64, key: &Key) -> Seen {
        Seen {
            deeds: history.len(),
            discarded: history.discarded(),
            repeats: history.repeats(),
            floor,
            standing: slots.find(key).map(Standing::of),
            tombstones: slots.tombstones(),
            tops: [vector.top(1), vector.top(2), vector.top(3)],
            gaps: [
                vector.exceptions(1),
                vector.exceptions(2),
                vector.exceptions(3),
            ],
        }
    }

    /// Stops where this isn't what is seen now.
    pub fn is_still(&self, now: Seen) -> Result<(), Stop> {
        if *self == now {
            Ok(())
        } else {
            Err(Stop::Changed)
        }
    }
}

impl Beside {
    /// Stops where this isn't what is seen now.
    pub fn is_still(&self, now: Beside) -> Result<(), Stop> {
        if *self == now {
            Ok(())
        } else {
            Err(Stop::Changed)
        }
    }
}

impl fmt::Display for Standing {
    fn fmt<W: fmt::Write>(&self, f: &mut fmt::Formatter<W>) -> fmt::Result {
        let Standing {
            ver,
            member,
            rv,
            since,
            ..
        } = self;
        if self.is_there {
            let number = Number(self.number);
            write!(f, "{number} {ver}.{member}.{rv} since {since}")
        } else {
            write!(f, "removed {ver}.{member}.{rv} since {since}")
        }
    }
}

impl fmt::Display for Seen {
    fn fmt<W: fmt::Write>(&self, f: &mut fmt::Formatter<W>) -> fmt::Result {
        let (deeds, discarded, floor) = (self.deeds, self.discarded, self.floor);
        write!(f, "deeds {deeds}, discarded {discarded}, floor {floor}")?;
        let [one, two, three] = self.tops;
        write!(f, ", tops {one} {two} {three}")?;
        let [one, two, three] = self.gaps;
        write!(f, ", gaps {one} {two} {three}, a ")?;
        match self.standing {
            None => write!(f, "absent"),
            Some(standing) => write!(f, "{standing}"),
        }
    }
}

impl fmt::Display for Beside {
    fn fmt<W: fmt::Write>(&self, f: &mut fmt::Formatter<W>) -> fmt::Result {
        let stable = if self.stable { ", stable" } else { "" };
        let (p, q) = (runs_word(self.p), runs_word(self.q));
        write!(f, "{}{stable}", self.seen)?;
        if !p.is_empty() {
            write!(f, ", p {p}")?;
        }
        if !q.is_empty() {
            write!(f, ", q {q}")?;
        }
        Ok(())
    }
}
