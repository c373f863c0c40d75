ghost use Rattle.std.specs.Prelude.{◌≡◌, ◌<◌, ◌≤◌, ◌+◌, ◌^◌, ℕ, ◌∷◌, List, Some, true, length, IfOk, OnOk, MatchOption, [], option_copied};
ghost use Rattle.std.specs.List.{cons_option};
ghost use Rattle.gr_script.specs.declared.forms.LineKind.TheVariants as kind;
ghost use Rattle.gr_script.specs.Forms.{is_kind, rank};
ghost use Rattle.gr_script.specs.Index.{counted};
ghost use Rattle.gr_script.specs.Plain.{IsPlain, delivery_saying};
ghost use Rattle.gr_script.specs.Printed.{act_saying, saying_in};
ghost use Rattle.gr_script.specs.Said.{line_of as line_said};
ghost use Rattle.gr_script.specs.declared.saying.Saying.{Saying};
ghost use Rattle.gr_script.specs.Past.{stage, region, members, founders, clients, steps, reports, joins, gifts, hears, heard_on, homes as homes_of, home, number as number_in, setting, sizes};
ghost use Rattle.gr_script.specs.Refusals.{asks, is_away, is_gone, last_moment, open_count};
ghost use Rattle.gr_script.specs.Taken.{IsNext, IsTaken, advanced, ahead, lines_taken, said};
ghost use Rattle.gr_script.specs.Texts.{lines_of};
ghost use Rattle.gr_script.specs.Limits.{most_lines};

use crate::Line;
use crate::attendance::Attendance;
use crate::forms::{LineKind, is_kind, rank};
use crate::items::Setting;
use crate::note::{
    counted, heard_on, homes_with, is_query, next_rank, setting_with, sizes_with, stated_with,
};
use crate::plain::{Delivery, PlainStep};
use crate::said::line_of;
use crate::saying::{Saying, number};
use crate::tally::Tallies;
use crate::text::next_line;
use gr_value::{Copied, ItemList, Key, Memory};
use std::alloc::Global;
use std::marker::Model;
use std::mem::replace;

/// How many mails an inbox has room for, where no line states it.
const DEFAULT_INBOX: u128 = 16;

/// The rank of the lines behind the heading.
const LAST_RANK: u8 = 8;

/// How many lines of some kinds there are.
#[derive(Clone, Copy)]
pub(crate) struct Counted {
    pub(crate) reports: u32,
    /// Reports that are heard, closing ones among them.
    pub(crate) hears: u64,
    pub(crate) sweeps: u32,
    pub(crate) opens: u32,
    pub(crate) queries: u32,
    pub(crate) departs: u32,
}

/// Numbers of the heading that no line is compared with.
#[derive(Clone, Copy)]
pub(crate) struct Sizes {
    pub(crate) shards: u128,
    pub(crate) inbox: u128,
    pub(crate) trouble: u128,
    pub(crate) floor: u128,
}

/// A text of which the first lines were taken in. What they say isn't kept as such: contracts see the
/// text and how many lines were taken, by which all else here is fixed. It is kept so that none of them
/// is looked at again.
#[derive(Drop)]
pub(crate) struct Past<'a> {
    runs: bool,
    text: &'a [u8],
    rest: &'a [u8],
    count: u32,
    stage: u8,
    setting: Setting,
    founders: u128,
    sizes: Sizes,
    homes: ItemList<u128>,
    tallies: Tallies,
    counted: Counted,
    attendance: Attendance,
    /// How many steps on queries stand for clients' coming back.
    returned: u64,
}

/// The next line of a text, and what follows it.
#[derive(Clone, Copy)]
pub(crate) struct Ahead<'a> {
    pub(crate) line: &'a [u8],
    pub(crate) after: &'a [u8],
}

impl<'a> Model for Past<'a> {
    ghost use Rattle.std.specs.Prelude.{◌≡◌};
    ghost use Rattle.gr_script.specs.Index.{IsIndex};
    ghost use Rattle.gr_script.specs.Taken.{IsTaken, Taken, ahead, said};
    ghost use Rattle.gr_script.specs.Texts.{lines_of};

    ghost Value = { Taken };

    ghost view = { λ past. record { runs = past.runs; text = past.text.now; count = past.count } };

    ghost invariant = { λ past. IsIndex past.stage past.setting past.founders past.sizes past.homes past.tallies past.counted
        past.attendance past.returned (said (record { runs = past.runs; text = past.text.now; count = past.count }))
        × IsTaken (record { runs = past.runs; text = past.text.now; count = past.count })
        × (ahead (record { runs = past.runs; text = past.text.now; count = past.count }) ≡ lines_of past.rest.now) };
}

impl<'a> Past<'a> {
    /// A text of which no line was taken in.
    pub(crate) fn new(alloc: Global, runs: bool, text: &'a [u8]) -> Result<Past<'a>, Memory>
        requires { length (lines_of text.now) ≤ most_lines }
        ensures { IfOk result (λ past. past ≡ record { runs = runs; text = text.now; count = 0 }) }
    {
        let setting = Setting {
            region: None,
            members: 0,
            clients: 0,
        };
        let counted = Counted {
            reports: 0,
            hears: 0,
            sweeps: 0,
            opens: 0,
            queries: 0,
            departs: 0,
        };
        let sizes = Sizes {
            shards: 0,
            inbox: DEFAULT_INBOX,
            trouble: 0,
            floor: 0,
        };
        Ok(Past {
            runs,
            text,
            rest: text,
            count: 0,
            stage: 0,
            setting,
            founders: 0,
            sizes,
            homes: ItemList::new(alloc)?,
            tallies: Tallies::new(),
            counted,
            attendance: Attendance::new(alloc),
            returned: 0,
        })
    }

    /// The least rank that a line may have now.
    pub(crate) fn stage(&self) -> u8
        ensures { result ≡ stage (said self.now) }
    {
        self.stage
    }

    /// What fields are compared with.
    pub(crate) fn setting(&self) -> &Setting
        ensures { result.now ≡ setting (said self.now) }
    {
        &self.setting
    }

    pub(crate) fn founders(&self) -> u128
        ensures { result ≡ founders (said self.now) }
    {
        self.founders
    }

    /// How many clients are stated.
    pub(crate) fn clients(&self) -> u128
        ensures { result ≡ clients (said self.now) }
    {
        self.setting.clients
    }

    /// The client's member.
    pub(crate) fn home(&self, client: u128) -> u128
        ensures { result ≡ home client (said self.now) }
    {
        let place = client.saturating_sub(1);
        let homes = self.homes.as_slice();
        if place < homes.len() as u128 {
            homes[place as usize]
        } else {
            0
        }
    }

    /// How many steps of the client there are.
    pub(crate) fn steps(&self, client: u128) -> u32
        ensures { result ≡ steps client (said self.now) }
    {
        self.tallies.steps.of(client)
    }

    pub(crate) fn reports(&self, member: u128) -> u32
        ensures { result ≡ reports member (said self.now) }
    {
        self.tallies.reports.of(member)
    }

    pub(crate) fn joins(&self, member: u128) -> u32
        ensures { result ≡ joins member (said self.now) }
    {
        self.tallies.joins.of(member)
    }

    /// How often the member gives a joiner its image.
    pub(crate) fn gifts(&self, provider: u128) -> u32
        ensures { result ≡ gifts provider (said self.now) }
    {
        self.tallies.gifts.of(provider)
    }

    /// Whether the member departed.
    pub(crate) fn is_gone(&self, member: u128) -> bool
        ensures { result ≡ is_gone member (said self.now) }
    {
        if self.counted.departs == 0 {
            return false;
        }
        self.tallies.departs.of(member) != 0
    }

    /// Whether the client's member departed.
    #[inline(always)]
    pub(crate) fn is_home_gone(&self, client: u128) -> bool
        ensures { result ≡ is_gone (home client (said self.now)) (said self.now) }
    {
        if self.counted.departs == 0 {
            return false;
        }
        self.is_gone(self.home(client))
    }

    /// Whether the client has left and isn't back.
    #[inline(always)]
    pub(crate) fn is_away(&self, client: u128) -> bool
        ensures { result ≡ is_away client (said self.now) }
    {
        self.attendance.is_away(client)
    }

    /// The moment of the client's last line of leaving or coming back, in seconds.
    pub(crate) fn last_moment(&self, client: u128) -> u32
        ensures { result ≡ last_moment client (said self.now) }
    {
        self.attendance.moment(client)
    }

    /// How many queries the client has open.
    pub(crate) fn open_count(&self, client: u128) -> usize
        ensures { result ≡ open_count client (said self.now) }
    {
        self.attendance.names(client).len()
    }

    /// How many steps on queries the lines stand for.
    pub(crate) fn asks(&self) -> u128
        ensures { result ≡ asks (said self.now) }
    {
        u128::from(self.counted.queries) + u128::from(self.returned)
    }

    pub(crate) fn counted(&self) -> Counted
        ensures { result ≡ counted (said self.now) }
    {
        self.counted
    }

    /// The number of the next line, counted from 1.
    pub(crate) fn next_number(&self) -> u32
        ensures { result ≡ self.now.count + 1 }
    {
        self.count + 1
    }

    /// Whether the lines may not say what comes of themselves.
    pub(crate) fn runs(&self) -> bool
        ensures { result ≡ self.now.runs }
    {
        self.runs
    }

    /// The next line.
    pub(crate) fn ahead(&self) -> Option<Ahead<'a>>
        ensures taken { IsTaken self.now }
        ensures next { MatchOption result (ahead self.now ≡ []) (λ next. ahead self.now ≡ next.line.now ∷ lines_of next.after.now) }
    {
        let (line, after) = next_line(self.rest)?;
        Some(Ahead { line, after })
    }

    pub(crate) fn region(&self) -> Option<&Key>
        ensures { option_copied result ≡ region (said self.now) }
    {
        self.setting.region.as_ref()
    }

    pub(crate) fn sizes(&self) -> Sizes
        ensures { result ≡ sizes (said self.now) }
    {
        self.sizes
    }

    /// The member of each client.
    pub(crate) fn homes(&self) -> &[u128]
        ensures { result.now ≡ homes_of (said self.now) }
    {
        self.homes.as_slice()
    }

    /// Takes in the next line, which is skipped.
    pub(crate) fn skip(&mut self, after: &'a [u8])
        requires { IsNext self.old (said self.old) after.now }
        ensures { self.new ≡ advanced self.old }
    {
        self.rest = after;
        self.count += 1;
    }

    /// Takes in the next line, and hands out the line of the script that it is, if it is one.
    pub(crate) fn push(
        &mut self,
        alloc: Global,
        saying: Saying,
        after: &'a [u8],
    ) -> Result<Option<Line>, Memory>
        requires { IsNext self.old (saying ∷ said self.old) after.now }
        ensures taken { OnOk result (self.new ≡ advanced self.old) }
        ensures line { IfOk result (λ line. lines_taken self.new ≡ cons_option line (lines_taken self.old)) }
    {
        if rank(saying.kind) < LAST_RANK {
            self.push_heading(alloc, saying, after)?;
            Ok(None)
        } else {
            Ok(Some(self.push_behind(alloc, saying, after)?))
        }
    }

    // One line of the heading more. Few lines come here.
    #[inline(never)]
    fn push_heading(&mut self, alloc: Global, saying: Saying, after: &'a [u8]) -> Result<(), Memory>
        requires next { IsNext self.old (saying ∷ said self.old) after.now }
        requires early { rank saying.kind < 8 }
        ensures { OnOk result (self.new ≡ advanced self.old) }
    {
        let past = replace(self, Past::new(alloc, false, &[])?);
        *self = past.with(alloc, saying, after)?;
        Ok(())
    }

    // One line more behind the heading.
    fn push_behind(
        &mut self,
        alloc: Global,
        saying: Saying,
        after: &'a [u8],
    ) -> Result<Line, Memory>
        requires next { IsNext self.old (saying ∷ said self.old) after.now }
        requires late { 8 ≤ rank saying.kind }
        ensures taken { OnOk result (self.new ≡ advanced self.old) }
        ensures line { IfOk result (λ line. lines_taken self.new ≡ line ∷ lines_taken self.old) }
    {
        let kind = saying.kind;
        let items = saying.items.as_slice();
        let (first, second) = (number(0, items), number(1, items));
        let seq = self.tallies.steps.of(first) + 1;
        let line = line_of(seq, saying).unwrap();
        self.put(alloc, kind, first, second, &line, after)?;
        Ok(line)
    }

    /// Takes in the next line, which is a call or a peek, and hands it out.
    pub(crate) fn push_step(
        &mut self,
        alloc: Global,
        step: PlainStep,
        after: &'a [u8],
    ) -> Result<Line, Memory>
        requires next { IsNext self.old (act_saying step.client step.act ∷ said self.old) after.now }
        requires kind { (act_saying step.client step.act).kind ≡ step.kind }
        requires plain { IsPlain step.act }
        ensures taken { OnOk result (self.new ≡ advanced self.old) }
        ensures line { IfOk result (λ line. lines_taken self.new ≡ line ∷ lines_taken self.old) }
    {
        let PlainStep { kind, client, act } = step;
        let first = u128::from(client);
        let seq = self.tallies.steps.of(first) + 1;
        let line = Line::Step { client, seq, act };
        self.put(alloc, kind, first, 0, &line, after)?;
        Ok(line)
    }

    /// Takes in the next line, which is a delivery, and hands it out.
    pub(crate) fn push_delivery(
        &mut self,
        alloc: Global,
        delivery: Delivery,
        after: &'a [u8],
    ) -> Result<Line, Memory>
        requires { IsNext self.old (delivery_saying delivery ∷ said self.old) after.now }
        ensures taken { OnOk result (self.new ≡ advanced self.old) }
        ensures line { IfOk result (λ line. lines_taken self.new ≡ line ∷ lines_taken self.old) }
    {
        let Delivery { to, client, seq } = delivery;
        let line = Line::Deliver { to, client, seq };
        let (first, second) = (u128::from(to), u128::from(client));
        self.put(alloc, LineKind::Deliver, first, second, &line, after)?;
        Ok(line)
    }

    // Takes in the next line, which has this kind and this number first, behind the heading. The second number
    // is that of the member that a joiner gets its image from.
    #[inline(always)]
    fn put(
        &mut self,
        alloc: Global,
        form: LineKind,
        first: u128,
        second: u128,
        line: &Line,
        after: &'a [u8],
    ) -> Result<(), Memory>
        requires late { 8 ≤ rank form }
        requires narrow { first < 2 ^ 8 }
        requires joined { is_kind kind.Join form ≡ true → second < 2 ^ 8 }
        requires next { (saying : Saying) × (form ≡ saying.kind) × (first ≡ number_in 0 saying.items)
            × (is_kind kind.Join saying.kind ≡ true → second ≡ number_in 1 saying.items)
            × (line_said (said self.old) saying ≡ Some line.now) × IsNext self.old (saying ∷ said self.old) after.now }
        ensures { OnOk result (self.new ≡ advanced self.old) }
    {
        let counted = counted_with(form, self.counted);
        let returned = self.attendance.returned_on(line);
        self.attendance.note(alloc, line)?;
        self.tallies.count_line(form, first, second);
        self.stage = LAST_RANK;
        self.counted = counted;
        self.returned += returned;
        self.rest = after;
        self.count += 1;
        Ok(())
    }

    // These with one line of the heading more.
    fn with(self, alloc: Global, line: Saying, after: &'a [u8]) -> Result<Past<'a>, Memory>
        requires next { IsNext self (line ∷ said self) after.now }
        requires early { rank line.kind < 8 }
        ensures { IfOk result (λ past. past ≡ advanced self.entry) }
    {
        let kind = line.kind;
        let homes = homes_with(&line, self.homes)?;
        let setting = setting_with(alloc, &line, self.setting, &homes)?;
        let founders = stated_with(LineKind::Members, 1, &line, self.founders);
        let sizes = sizes_with(&line, self.sizes);
        let counted = counted_with(kind, self.counted);
        Ok(Past {
            runs: self.runs,
            text: self.text,
            rest: after,
            count: self.count + 1,
            stage: next_rank(kind),
            setting,
            founders,
            sizes,
            homes,
            tallies: self.tallies,
            counted,
            attendance: self.attendance,
            returned: self.returned,
        })
    }
}

fn hears_with(kind: LineKind, counts: Counted) -> u64
    requires { (past : List Saying) × (counts ≡ counted past) × (length past < most_lines) }
    ensures { (past : List Saying) → counts ≡ counted past → result ≡ heard_on past kind + hears past }
{
    heard_on(kind, counts.departs) + counts.hears
}

fn counted_with(kind: LineKind, counts: Counted) -> Counted
    requires { (past : List Saying) × (counts ≡ counted past) × (length past < most_lines) }
    ensures { (past : List Saying) → (line : Saying) → counts ≡ counted past → kind ≡ line.kind → result ≡ counted (line ∷ past) }
{
    Counted {
        reports: counted(is_kind(LineKind::Report, kind), counts.reports),
        hears: hears_with(kind, counts),
        sweeps: counted(is_kind(LineKind::Sweep, kind), counts.sweeps),
        opens: counted(is_kind(LineKind::Open, kind), counts.opens),
        queries: counted(is_query(kind), counts.queries),
        departs: counted(is_kind(LineKind::Depart, kind), counts.departs),
    }
}
