ghost use Rattle.std.specs.Prelude.{◌≡◌, ◌<◌, ℕ, List, [], ◌∷◌, ◌&&◌, length, not, get_or, IfOk, OnOk, OnErr, option_copied, slice_get};
ghost use Rattle.std.specs.Prelude.{if◌then◌else◌};
ghost use Rattle.gr_history.specs.Regions.{with_key};
ghost use Rattle.gr_script.specs.Absence.{IsAttendance, IsSet, AreSame, at_first, is_late, names_after, presence_of, returned_on, without_name};
ghost use Rattle.gr_script.specs.declared.line.Act.TheVariants as act;
ghost use Rattle.gr_script.specs.declared.line.Line.{Line as ALine};
ghost use Rattle.gr_script.specs.declared.line.Line.TheVariants as line;

use crate::{Act, Line};
use gr_history::QueryAsk;
use gr_value::{Copied, Key, KeyList, Memory};
use std::alloc::Global;
use std::cmp::Ordering;
use std::marker::Model;

/// The most seconds after which a client that comes back still has its queries.
const LONGEST_ABSENCE: u32 = 300;

/// How a client stands.
#[derive(Drop)]
pub struct Presence {
    /// Whether it has left and isn't back.
    pub away: bool,
    /// The moment of its last line of leaving or coming back, in seconds, or 0.
    pub moment: u32,
    /// The names of the queries that it has open, in order.
    pub names: KeyList,
}

/// How each client stands behind the first lines of a script, by its number.
#[derive(Drop)]
pub struct Attendance {
    kept: Vec<Presence>,
}

impl Model for Attendance {
    ghost use Rattle.std.specs.Prelude.{List};
    ghost use Rattle.gr_script.specs.declared.attendance.Presence.{Presence};

    ghost Value = { List Presence };

    ghost view = { λ attendance. attendance.kept.items };
}

// Puts a name where it belongs, unless it is there.
fn with_name(alloc: Global, name: &Key, names: &[Key]) -> Result<KeyList, Memory>
    ensures { IfOk result (λ all. all ≡ with_key name.now names.now) }
{
    let mut all = KeyList::new(alloc)?;
    let mut stands = false;
    for other in names {
        if !stands {
            match name.cmp(other) {
                Ordering::Less => {
                    all.push(name.copy(alloc)?)?;
                    stands = true;
                }
                Ordering::Equal => stands = true,
                Ordering::Greater => (),
            }
        }
        all.push(other.copy(alloc)?)?;
    }
    if !stands {
        all.push(name.copy(alloc)?)?;
    }
    Ok(all)
}

fn without_name(alloc: Global, name: &Key, names: &[Key]) -> Result<KeyList, Memory>
    ensures { IfOk result (λ left. left ≡ without_name name.now names.now) }
{
    let mut left = KeyList::new(alloc)?;
    for other in names {
        if other != name {
            left.push(other.copy(alloc)?)?;
        }
    }
    Ok(left)
}

/// Whether a client that left then is back too late.
pub fn is_late(left: u32, back: u32) -> bool
    ensures { result ≡ is_late left back }
{
    LONGEST_ABSENCE < back.saturating_sub(left)
}

impl Attendance {
    /// Before the first line.
    pub fn new(alloc: Global) -> Attendance
        ensures { result ≡ [] }
    {
        Attendance {
            kept: Vec::new(alloc),
        }
    }

    // What is kept of a client, if anything.
    #[inline(always)]
    fn of(&self, client: u128) -> Option<&Presence>
        ensures { option_copied result ≡ slice_get self.now client }
    {
        if client < self.kept.len() as u128 {
            Some(&self.kept[client as usize])
        } else {
            None
        }
    }

    /// Whether the client has left and isn't back.
    #[inline(always)]
    pub fn is_away(&self, client: u128) -> bool
        ensures { result ≡ (get_or self.now client at_first).away }
    {
        match self.of(client) {
            Some(presence) => presence.away,
            None => false,
        }
    }

    /// The moment of its last line of leaving or coming back, in seconds, or 0.
    pub fn moment(&self, client: u128) -> u32
        ensures { result ≡ (get_or self.now client at_first).moment }
    {
        match self.of(client) {
            Some(presence) => presence.moment,
            None => 0,
        }
    }

    /// The names of the queries that it has open, in order.
    pub fn names(&self, client: u128) -> &[Key]
        ensures { result.now ≡ (get_or self.now client at_first).names }
    {
        match self.of(client) {
            Some(presence) => presence.names.as_slice(),
            None => &[],
        }
    }

    // Makes room for a client.
    fn reach(&mut self, alloc: Global, client: u8) -> Result<(), Memory>
        ensures same { AreSame self.old self.new }
        ensures long { OnOk result (client < length self.new) }
    {
        while self.kept.len() <= usize::from(client) {
            self.kept.push(Presence {
                away: false,
                moment: 0,
                names: KeyList::new(alloc)?,
            })?;
        }
        Ok(())
    }

    // Keeps this of a client.
    fn set(&mut self, alloc: Global, client: u8, next: Presence) -> Result<(), Memory>
        ensures ok { OnOk result (IsSet self.old client next self.new) }
        ensures err { OnErr result (AreSame self.old self.new) }
    {
        self.reach(alloc, client)?;
        self.kept[usize::from(client)] = next;
        Ok(())
    }

    // What is kept of a client with these names.
    fn renamed(&self, client: u8, names: KeyList) -> Presence
        ensures { result ≡ presence_of (get_or self.now client at_first).away (get_or self.now client at_first).moment names }
    {
        let client = u128::from(client);
        Presence {
            away: self.is_away(client),
            moment: self.moment(client),
            names,
        }
    }

    fn open(&mut self, alloc: Global, client: u8, name: &Key) -> Result<(), Memory>
        ensures ok { OnOk result (IsSet self.old client (presence_of (get_or self.old client at_first).away
            (get_or self.old client at_first).moment (with_key name.now (get_or self.old client at_first).names)) self.new) }
        ensures err { OnErr result (AreSame self.old self.new) }
    {
        let names = with_name(alloc, name, self.names(u128::from(client)))?;
        let next = self.renamed(client, names);
        self.set(alloc, client, next)
    }

    fn close(&mut self, alloc: Global, client: u8, name: &Key) -> Result<(), Memory>
        ensures ok { OnOk result (IsSet self.old client (presence_of (get_or self.old client at_first).away
            (get_or self.old client at_first).moment (without_name name.now (get_or self.old client at_first).names)) self.new) }
        ensures err { OnErr result (AreSame self.old self.new) }
    {
        let names = without_name(alloc, name, self.names(u128::from(client)))?;
        let next = self.renamed(client, names);
        self.set(alloc, client, next)
    }

    // Keeps what comes of a client's step on a query.
    #[tactic(auto, using(crate::proofs::Absences::set_so))]
    fn ask(&mut self, alloc: Global, client: u8, ask: &QueryAsk) -> Result<(), Memory>
        ensures ok { OnOk result (IsSet self.old client (presence_of (get_or self.old client at_first).away
            (get_or self.old client at_first).moment
            (names_after (act.Query ask.now) (get_or self.old client at_first).names)) self.new) }
        ensures err { OnErr result (AreSame self.old self.new) }
    {
        match ask {
            QueryAsk::Enrol { name, .. } => self.open(alloc, client, name),
            QueryAsk::Close { name } => self.close(alloc, client, name),
            QueryAsk::Stop { .. } | QueryAsk::Fetch { .. } => Ok(()),
        }
    }

    // The names that a client has open which leaves or comes back at this moment.
    fn names_at(
        &self,
        alloc: Global,
        client: u8,
        back: bool,
        moment: u32,
    ) -> Result<KeyList, Memory>
        ensures { IfOk result (λ names. names ≡ (if back && is_late (get_or self.now client at_first).moment moment then []
            else (get_or self.now client at_first).names)) }
    {
        match self.of(u128::from(client)) {
            Some(presence) => if back && is_late(presence.moment, moment) {
                KeyList::new(alloc)
            } else {
                presence.names.copy(alloc)
            },
            None => KeyList::new(alloc),
        }
    }

    // A client leaves or comes back.
    fn turn(&mut self, alloc: Global, client: u8, back: bool, moment: u32) -> Result<(), Memory>
        ensures ok { OnOk result (IsSet self.old client (presence_of (not back) moment
            (if back && is_late (get_or self.old client at_first).moment moment then []
            else (get_or self.old client at_first).names)) self.new) }
        ensures err { OnErr result (AreSame self.old self.new) }
    {
        let next = Presence {
            away: !back,
            moment,
            names: self.names_at(alloc, client, back, moment)?,
        };
        self.set(alloc, client, next)
    }

    /// Keeps what comes of a client's step.
    #[inline(always)]
    #[tactic(auto, using(crate::proofs::Absences::asks_so, crate::proofs::Absences::step_so))]
    pub fn note_step(&mut self, alloc: Global, client: u8, act: &Act) -> Result<(), Memory>
        ensures ok { OnOk result ((seq : ℕ) (past : List ALine) → IsAttendance self.old past
            → IsAttendance self.new (line.Step client seq act.now ∷ past)) }
        ensures err { OnErr result (AreSame self.old self.new) }
    {
        match act {
            Act::Query(ask) => self.ask(alloc, client, ask),
            _ => Ok(()),
        }
    }

    /// Keeps what comes of one line more.
    #[inline(always)]
    pub fn note(&mut self, alloc: Global, line: &Line) -> Result<(), Memory>
        ensures ok { OnOk result ((past : List ALine) → IsAttendance self.old past → IsAttendance self.new (line.now ∷ past)) }
        ensures err { OnErr result (AreSame self.old self.new) }
    {
        match line {
            Line::Step { client, act, .. } => Ok(self.note_step(alloc, *client, act)?),
            Line::Leave { client, moment } => self.turn(alloc, *client, false, *moment),
            Line::Back { client, moment } => self.turn(alloc, *client, true, *moment),
            _ => Ok(()),
        }
    }

    /// How many steps on queries the next line stands for beside itself.
    #[inline(always)]
    pub fn returned_on(&self, line: &Line) -> u64
        ensures { (past : List ALine) → IsAttendance self.now past → result ≡ returned_on past line.now }
    {
        match line {
            Line::Back { client, .. } => self.names(u128::from(*client)).len() as u64,
            _ => 0,
        }
    }
}
