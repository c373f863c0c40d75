ghost use Rattle.std.specs.Prelude.{◌≡◌, ◌++◌, ◌+◌, [], ◌∷◌, ◌≤◌, ℕ, List, IfOk, OnOk, map, reverse};
ghost use Rattle.gr_script.specs.declared.line.Line.{Line as ALine};
ghost use Rattle.gr_script.specs.declared.line.Line.TheVariants as line;
ghost use Rattle.gr_script.specs.Absence.{IsAttendance, presence};
ghost use Rattle.gr_script.specs.Expanded.{added, expanded, new_number, return_of, returns, steps_on, with_line};
ghost use Rattle.gr_durable.specs.Expanding.{Fits, IsExpander, lines_in};

use crate::numbers::Numbers;
use gr_history::QueryAsk;
use gr_script::{Act, Attendance, Line, LineList, is_late};
use gr_value::{Copied, Key, Memory};
use std::alloc::Global;

/// What is played in place of a line.
#[derive(Drop)]
pub enum Turn {
    Line(Line),
    Lines(LineList),
}

/// Expands a script line by line: how its clients stand, and the new numbers of their steps.
#[derive(Drop)]
pub struct Expander {
    attendance: Attendance,
    /// By the clients' numbers.
    numbers: Vec<Numbers>,
}

// What a client that is back does of a query.
fn return_of(alloc: Global, late: bool, name: &Key) -> Result<QueryAsk, Memory>
    ensures { IfOk result (λ ask. ask ≡ return_of late name.now) }
{
    let name = name.copy(alloc)?;
    if late {
        Ok(QueryAsk::Close { name })
    } else {
        Ok(QueryAsk::Fetch { name })
    }
}

// A client's steps on all its queries.
fn steps_on(
    alloc: Global,
    client: u8,
    first: u32,
    late: bool,
    names: &[Key],
) -> Result<LineList, Memory>
    ensures { IfOk result (λ lines. (before : List ALine)
        → reverse lines ++ before ≡ steps_on client first (map (return_of late) names.now) before) }
{
    let mut lines = LineList::new(alloc)?;
    let mut seq = first;
    for name in names {
        let act = Act::Query(return_of(alloc, late, name)?);
        lines.push(Line::Step { client, seq, act })?;
        seq = seq.checked_add(1).ok_or(Memory)?;
    }
    Ok(lines)
}

impl Expander {
    /// Before the first line of a script with so many clients.
    #[tactic(auto, using(crate::proofs::Expanders::begins, crate::proofs::Expanders::one_more))]
    pub fn new(alloc: Global, clients: usize) -> Result<Expander, Memory>
        ensures { IfOk result (λ expander. IsExpander clients expander []) }
    {
        let mut numbers = Vec::new(alloc);
        while numbers.len() <= clients {
            numbers.push(Numbers::new(alloc)?)?;
        }
        Ok(Expander {
            attendance: Attendance::new(alloc),
            numbers,
        })
    }

    // Takes in a step.
    #[inline(always)]
    fn step(&mut self, alloc: Global, client: u8, seq: u32, act: Act) -> Result<Line, Memory>
        requires { (clients : ℕ) × (past : List ALine) × IsExpander clients self.old past × (client ≤ clients) }
        ensures kept { OnOk result ((clients : ℕ) (past : List ALine) → IsExpander clients self.old past
            → Fits clients past (line.Step client seq act) → IsExpander clients self.new (line.Step client seq act ∷ past)) }
        ensures line { IfOk result (λ done. (clients : ℕ) (past : List ALine) → IsExpander clients self.old past → client ≤ clients
            → done ≡ line.Step client (seq + added client past) act) }
    {
        self.attendance.note_step(alloc, client, &act)?;
        let seq = self.numbers[usize::from(client)].step(seq)?;
        Ok(Line::Step { client, seq, act })
    }

    // Takes in the delivery of a step.
    #[inline(always)]
    fn deliver(&self, to: u8, client: u8, seq: u32) -> Line
        requires { (clients : ℕ) × (past : List ALine) × IsExpander clients self.now past × Fits clients past (line.Deliver to client seq) }
        ensures { (clients : ℕ) (past : List ALine) → IsExpander clients self.now past → Fits clients past (line.Deliver to client seq)
            → result ≡ line.Deliver to client (new_number client seq past) }
    {
        let seq = self.numbers[usize::from(client)].of(seq);
        Line::Deliver { to, client, seq }
    }

    // Takes in that a client leaves.
    fn leave(&mut self, alloc: Global, client: u8, moment: u32) -> Result<LineList, Memory>
        ensures kept { OnOk result ((clients : ℕ) (past : List ALine) → IsExpander clients self.old past
            → IsExpander clients self.new (line.Leave client moment ∷ past)) }
        ensures lines { IfOk result (λ lines. lines ≡ []) }
    {
        self.attendance
            .note(alloc, &Line::Leave { client, moment })?;
        LineList::new(alloc)
    }

    // The steps of a client that is back, of which the first has this number.
    fn returns(
        &self,
        alloc: Global,
        client: u8,
        moment: u32,
        first: u32,
    ) -> Result<LineList, Memory>
        ensures { IfOk result (λ lines. (past : List ALine) → IsAttendance self.now.attendance past → (before : List ALine)
            → reverse lines ++ before ≡ steps_on client first (returns (presence client past) moment) before) }
    {
        let number = u128::from(client);
        let late = is_late(self.attendance.moment(number), moment);
        steps_on(alloc, client, first, late, self.attendance.names(number))
    }

    // Takes in that a client is back.
    fn back(&mut self, alloc: Global, client: u8, moment: u32) -> Result<LineList, Memory>
        requires { (clients : ℕ) × (past : List ALine) × IsExpander clients self.old past × (client ≤ clients) }
        ensures kept { OnOk result ((clients : ℕ) (past : List ALine) → IsExpander clients self.old past → client ≤ clients
            → IsExpander clients self.new (line.Back client moment ∷ past)) }
        ensures lines { IfOk result (λ lines. (clients : ℕ) (past : List ALine) → IsExpander clients self.old past → client ≤ clients
            → (before : List ALine) → reverse lines ++ before ≡ with_line past (line.Back client moment) before) }
    {
        let first = self.numbers[usize::from(client)].next()?;
        let lines = self.returns(alloc, client, moment, first)?;
        let names = self.attendance.names(u128::from(client)).len();
        self.numbers[usize::from(client)].add(names)?;
        self.attendance.note(alloc, &Line::Back { client, moment })?;
        Ok(lines)
    }

    /// Takes in the next line, and tells what is played in its place.
    #[inline(always)]
    pub fn take(&mut self, alloc: Global, line: Line) -> Result<Turn, Memory>
        requires { (clients : ℕ) × (past : List ALine) × IsExpander clients self.old past × Fits clients past line }
        ensures kept { OnOk result ((clients : ℕ) (past : List ALine) → IsExpander clients self.old past → Fits clients past line
            → IsExpander clients self.new (line ∷ past)) }
        ensures turn { IfOk result (λ turn. (clients : ℕ) (past : List ALine) → IsExpander clients self.old past
            → Fits clients past line → expanded (line ∷ past) ≡ reverse (lines_in turn) ++ expanded past) }
    {
        match line {
            Line::Step { client, seq, act } => Ok(Turn::Line(self.step(alloc, client, seq, act)?)),
            Line::Deliver { to, client, seq } => Ok(Turn::Line(self.deliver(to, client, seq))),
            Line::Leave { client, moment } => Ok(Turn::Lines(self.leave(alloc, client, moment)?)),
            Line::Back { client, moment } => Ok(Turn::Lines(self.back(alloc, client, moment)?)),
            other => Ok(Turn::Line(other)),
        }
    }
}
