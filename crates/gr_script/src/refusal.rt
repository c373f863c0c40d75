ghost use Rattle.std.specs.Prelude.{◌≡◌, ◌<◌, ◌+◌, ◌==◌, ◌||◌, ◌∷◌, [], nat_lt, not};
ghost use Rattle.std.specs.Bool.{OnTrue};
ghost use Rattle.gr_script.specs.declared.forms.LineKind.TheVariants as kind;
ghost use Rattle.gr_script.specs.Limits.{most_hears, most_queries, most_sweeps};
ghost use Rattle.gr_script.specs.Past.{count_of, gifts, hears, home, number, reports, steps};
ghost use Rattle.gr_script.specs.Halts.{Yields};
ghost use Rattle.gr_script.specs.Refusals.{is_begun, lacks, is_missing, is_full, is_no_join, is_gone, is_away, is_replayed, tests};
ghost use Rattle.gr_script.specs.Refusals.{asks, delivery_tests, last_moment, open_count, query_tests, step_tests};
ghost use Rattle.gr_script.specs.Refusals.{refusal, form_at, saying_at};
ghost use Rattle.gr_script.specs.Taken.{said};

use crate::forms::{LineKind, is_kind, rank};
use crate::halt::Halt;
use crate::items::{Item, items_at};
use crate::layout::{fits, form_of, has_word};
use crate::past::Past;
use crate::reason::Reason;
use crate::saying::{Saying, number};
use std::alloc::Global;

/// The lines that no script lacks, in order.
const REQUIRED: [LineKind; 4] = [
    LineKind::Georep,
    LineKind::Region,
    LineKind::Members,
    LineKind::Shards,
];

/// The most lines of some kinds.
const MOST_REPORTS: u32 = 200;

const MOST_HEARS: u64 = 1400;

const MOST_SWEEPS: u32 = 10000;

const MOST_OPENS: u32 = 16;

const MOST_QUERIES: u32 = 10000;

fn is_begun(kind: LineKind, text: &[u8]) -> bool
    ensures { result ≡ is_begun kind text.now }
{
    match kind {
        LineKind::Georep => {
            has_word(LineKind::Georep, text) && fits(LineKind::Georep.fields(), text)
        }
        _ => has_word(kind, text),
    }
}

// Whether another line is due.
fn lacks(stage: u8, text: &[u8]) -> bool
    ensures exact { result ≡ lacks stage text.now }
    ensures early { OnTrue result (stage < 4) }
{
    match REQUIRED.get(usize::from(stage)) {
        Some(due) => !is_begun(*due, text),
        None => false,
    }
}

fn is_missing(number: u128, count: u32) -> bool
    ensures { result ≡ is_missing number count }
{
    number == 0 || u128::from(count) < number
}

fn is_full(most: u32, count: u32) -> bool
    ensures { result ≡ is_full most count }
{
    most <= count
}

fn is_no_join(past: &Past, member: u128, provider: u128) -> bool
    ensures { result ≡ is_no_join member provider (said past.now) }
{
    member <= past.founders() || past.joins(member) != 0 || past.founders() < provider
}

// The reason, where the test holds.
fn reason_where(test: bool, why: Reason) -> Option<Reason>
    ensures { result ≡ refusal ((test, why) ∷ []) }
{
    if test { Some(why) } else { None }
}

// The reason of the first test that holds, of these two.
fn reason_of(test: bool, why: Reason, other: bool, then: Reason) -> Option<Reason>
    ensures { result ≡ refusal ((test, why) ∷ (other, then) ∷ []) }
{
    if test {
        Some(why)
    } else {
        reason_where(other, then)
    }
}

// Whether the member departed that the line names at this place among its numbers.
fn names_gone(past: &Past, place: usize, items: &[Item]) -> bool
    ensures { result ≡ is_gone (number place items.now) (said past.now) }
{
    past.is_gone(number(place, items))
}

// Whether the client's member departed.
fn is_home_gone(past: &Past, items: &[Item]) -> bool
    ensures { result ≡ is_gone (home (number 0 items.now) (said past.now)) (said past.now) }
{
    past.is_home_gone(number(0, items))
}

// Whether the client has left and isn't back.
fn is_absent(past: &Past, items: &[Item]) -> bool
    ensures { result ≡ is_away (number 0 items.now) (said past.now) }
{
    past.is_away(number(0, items))
}

// Whether the moment is before the client's last one.
fn is_early(past: &Past, items: &[Item]) -> bool
    ensures { result ≡ nat_lt (number 1 items.now) (last_moment (number 0 items.now) (said past.now)) }
{
    number(1, items) < u128::from(past.last_moment(number(0, items)))
}

/// Why a client's step can't be delivered to a member.
pub(crate) fn undeliverable(past: &Past, to: u128, client: u128, seq: u128) -> Option<Reason>
    ensures { result ≡ refusal (delivery_tests (said past.now) to client seq) }
{
    if is_missing(seq, past.steps(client)) {
        return Some(Reason::Later);
    }
    let own = to == past.home(client);
    reason_of(own, Reason::Itself, past.is_gone(to), Reason::Gone)
}

fn delivery_refusal(past: &Past, items: &[Item]) -> Option<Reason>
    ensures { result ≡ refusal (tests (said past.now) kind.Deliver items.now) }
{
    undeliverable(past, number(0, items), number(1, items), number(2, items))
}

fn is_late_report(past: &Past, items: &[Item]) -> bool
    ensures { result ≡ is_missing (number 2 items.now) (reports (number 1 items.now) (said past.now)) }
{
    is_missing(number(2, items), past.reports(number(1, items)))
}

// Whether no more reports may be heard.
fn is_deaf(past: &Past) -> bool
    ensures { result ≡ is_full most_hears (hears (said past.now)) }
{
    MOST_HEARS <= past.counted().hears
}

fn hearing_refusal(past: &Past, items: &[Item]) -> Option<Reason>
    ensures { result ≡ refusal (tests (said past.now) kind.Hear items.now) }
{
    if is_late_report(past, items) {
        Some(Reason::Later)
    } else if number(0, items) == number(1, items) {
        Some(Reason::Itself)
    } else {
        let gone = names_gone(past, 0, items);
        reason_of(gone, Reason::Gone, is_deaf(past), Reason::Count)
    }
}

fn cannot_join(past: &Past, items: &[Item]) -> bool
    ensures { result ≡ is_no_join (number 0 items.now) (number 1 items.now) (said past.now) }
{
    is_no_join(past, number(0, items), number(1, items))
}

fn joining_refusal(past: &Past, items: &[Item]) -> Option<Reason>
    ensures { result ≡ refusal (tests (said past.now) kind.Join items.now) }
{
    let gone = names_gone(past, 0, items) || names_gone(past, 1, items);
    reason_of(cannot_join(past, items), Reason::Join, gone, Reason::Gone)
}

// Whether no more sweeps may go through, or no more reports be heard than closing ones at this sweep.
fn is_swept_out(past: &Past) -> bool
    ensures { result ≡ (is_full most_sweeps (count_of kind.Sweep (said past.now))
        || nat_lt most_hears (hears (said past.now) + count_of kind.Depart (said past.now))) }
{
    let counted = past.counted();
    let heard = u128::from(counted.hears) + u128::from(counted.departs);
    is_full(MOST_SWEEPS, counted.sweeps) || u128::from(MOST_HEARS) < heard
}

fn sweep_refusal(past: &Past, items: &[Item]) -> Option<Reason>
    ensures { result ≡ refusal (tests (said past.now) kind.Sweep items.now) }
{
    let gone = names_gone(past, 0, items);
    reason_of(gone, Reason::Gone, is_swept_out(past), Reason::Count)
}

// Whether the member gave a joiner its image.
fn has_provided(past: &Past, items: &[Item]) -> bool
    ensures { result ≡ not (gifts (number 0 items.now) (said past.now) == 0) }
{
    past.gifts(number(0, items)) != 0
}

fn departure_refusal(past: &Past, items: &[Item]) -> Option<Reason>
    ensures { result ≡ refusal (tests (said past.now) kind.Depart items.now) }
{
    let gone = names_gone(past, 0, items);
    reason_of(
        gone,
        Reason::Gone,
        has_provided(past, items),
        Reason::Provider,
    )
}

fn step_refusal(past: &Past, items: &[Item]) -> Option<Reason>
    ensures { result ≡ refusal (step_tests (said past.now) items.now) }
{
    let gone = is_home_gone(past, items);
    reason_of(gone, Reason::Gone, is_absent(past, items), Reason::Away)
}

fn query_refusal(past: &Past, items: &[Item], full: bool) -> Option<Reason>
    ensures { result ≡ refusal (query_tests (said past.now) full items.now) }
{
    if is_home_gone(past, items) {
        Some(Reason::Gone)
    } else {
        reason_of(is_absent(past, items), Reason::Away, full, Reason::Count)
    }
}

fn leaving_refusal(past: &Past, items: &[Item]) -> Option<Reason>
    ensures { result ≡ refusal (tests (said past.now) kind.Leave items.now) }
{
    let away = is_absent(past, items) || is_early(past, items);
    reason_of(is_home_gone(past, items), Reason::Gone, away, Reason::Away)
}

// Whether there are no more steps on queries for all that the client has open.
fn is_asked_out(past: &Past, items: &[Item]) -> bool
    ensures { result ≡ nat_lt most_queries (asks (said past.now) + open_count (number 0 items.now) (said past.now)) }
{
    let open = past.open_count(number(0, items)) as u128;
    match u128::from(MOST_QUERIES).checked_sub(past.asks()) {
        Some(left) => left < open,
        None => true,
    }
}

fn returning_refusal(past: &Past, items: &[Item]) -> Option<Reason>
    ensures { result ≡ refusal (tests (said past.now) kind.Back items.now) }
{
    if is_home_gone(past, items) {
        Some(Reason::Gone)
    } else {
        let here = !is_absent(past, items) || is_early(past, items);
        reason_of(here, Reason::Away, is_asked_out(past, items), Reason::Count)
    }
}

// The reason against a line with good fields.
fn refusal(past: &Past, form: LineKind, items: &[Item]) -> Option<Reason>
    ensures { result ≡ refusal (tests (said past.now) form items.now) }
{
    let counted = past.counted();
    let asked = u128::from(MOST_QUERIES) <= past.asks();
    match form {
        LineKind::Members => reason_where(number(0, items) < number(1, items), Reason::Range),
        LineKind::Client => {
            let client = number(0, items);
            reason_where(client == 0 || client - 1 != past.clients(), Reason::Order)
        }
        LineKind::Deliver => delivery_refusal(past, items),
        LineKind::Hear => hearing_refusal(past, items),
        LineKind::Join => joining_refusal(past, items),
        LineKind::Report => {
            let full = is_full(MOST_REPORTS, counted.reports);
            reason_of(
                names_gone(past, 0, items),
                Reason::Gone,
                full,
                Reason::Count,
            )
        }
        LineKind::Sweep => sweep_refusal(past, items),
        LineKind::Depart => departure_refusal(past, items),
        LineKind::Leave => leaving_refusal(past, items),
        LineKind::Back => returning_refusal(past, items),
        LineKind::Open => {
            query_refusal(past, items, is_full(MOST_OPENS, counted.opens) || asked)
        }
        LineKind::Stop | LineKind::Close | LineKind::Fetch => query_refusal(past, items, asked),
        LineKind::Georep
        | LineKind::Region
        | LineKind::Shards
        | LineKind::Inbox
        | LineKind::Trouble
        | LineKind::Floor => None,
        _ => step_refusal(past, items),
    }
}

fn is_replayed(kind: LineKind) -> bool
    ensures { result ≡ is_replayed kind }
{
    is_kind(LineKind::Deliver, kind)
        || is_kind(LineKind::Hear, kind)
        || is_kind(LineKind::Depart, kind)
}

// Which form a line has, at the least rank that it may have now.
fn form_at(runs: bool, stage: u8, text: &[u8]) -> Result<LineKind, Halt>
    ensures { Yields (λ form. form) result (form_at runs stage text.now) }
{
    if lacks(stage, text) {
        return Err(Halt::Refused(Reason::Header(stage + 1)));
    }
    let Some(form) = form_of(text) else {
        return Err(Halt::Refused(Reason::Word));
    };
    if runs && is_replayed(form) {
        Err(Halt::Refused(Reason::NotInRun))
    } else if rank(form) < stage {
        Err(Halt::Refused(Reason::Order))
    } else if fits(form.fields(), text) {
        Ok(form)
    } else {
        Err(Halt::Refused(Reason::Fields))
    }
}

/// What a line says that isn't skipped, behind earlier ones.
pub(crate) fn saying_at(alloc: Global, runs: bool, past: &Past, text: &[u8]) -> Result<Saying, Halt>
    ensures { Yields (λ saying. saying) result (saying_at runs (said past.now) text.now) }
{
    let kind = form_at(runs, past.stage(), text)?;
    let items = items_at(alloc, past.setting(), kind.fields(), text)?;
    match refusal(past, kind, items.as_slice()) {
        Some(why) => Err(Halt::Refused(why)),
        None => Ok(Saying { kind, items }),
    }
}
