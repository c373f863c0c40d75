ghost use Rattle.std.specs.Prelude.{◌≡◌, ◌+◌, ◌∷◌, [], false, None, IfOk, IfSome, IfNone, OnOk};
ghost use Rattle.std.specs.Bool.{OnTrue};
ghost use Rattle.std.specs.List.{cons_option};
ghost use Rattle.gr_script.specs.declared.forms.LineKind.TheVariants as kind;
ghost use Rattle.gr_script.specs.Forms.{fields};
ghost use Rattle.gr_script.specs.Halts.{Yields};
ghost use Rattle.gr_script.specs.Past.{home, setting};
ghost use Rattle.gr_script.specs.Plain.{delivery_saying};
ghost use Rattle.gr_script.specs.Refusals.{delivery_tests, is_away, is_gone, past_with, refusal};
ghost use Rattle.gr_script.specs.Sayings.{Gives, ended, end_of};
ghost use Rattle.gr_script.specs.Suiting.{AllSuit, IsClient};
ghost use Rattle.gr_script.specs.Taken.{IsStep, advanced, ahead, lines_taken, said};
ghost use Rattle.gr_script.specs.Texts.{lines_of};

use crate::Line;
use crate::cuts::{is_skipped, text_said};
use crate::ending::{ScriptEnd, ScriptFault};
use crate::halt::Halt;
use crate::items::{is_stated, text_at};
use crate::past::{Ahead, Past};
use crate::plain::{Delivery, delivery_in, step_in};
use crate::reason::Reason;
use crate::refusal::{saying_at, undeliverable};
use gr_value::Memory;
use std::alloc::Global;

/// How many lines the heading cannot lack.
const REQUIRED_LINES: u8 = 4;

// Whether a line has stated the client, it is there, and its member hasn't departed.
fn serves(past: &Past, client: u8) -> bool
    ensures stated { OnTrue result (IsClient (setting (said past.now)) client) }
    ensures staying { OnTrue result (is_gone (home client (said past.now)) (said past.now) ≡ false) }
    ensures here { OnTrue result (is_away client (said past.now) ≡ false) }
{
    let number = u128::from(client);
    is_stated(past.setting(), client) && !past.is_home_gone(number) && !past.is_away(number)
}

// Whether a delivery may stand here.
fn can_deliver(past: &Past, delivery: Delivery) -> bool
    ensures suit { OnTrue result (AllSuit (setting (said past.now)) (fields kind.Deliver) (delivery_saying delivery).items) }
    ensures passes { OnTrue result (refusal (delivery_tests (said past.now) delivery.to delivery.client delivery.seq) ≡ None) }
{
    let Delivery { to, client, seq } = delivery;
    let to = u128::from(to);
    if to == 0 || past.setting().members < to || !is_stated(past.setting(), client) {
        return false;
    }
    match undeliverable(past, to, u128::from(client), u128::from(seq)) {
        None => true,
        Some(_) => false,
    }
}

// Takes in the next line, where it is printed for a delivery, and hands it out.
fn take_delivery<'a>(
    alloc: Global,
    past: &mut Past<'a>,
    next: Ahead<'a>,
) -> Result<Option<Line>, Memory>
    requires { ahead past.old ≡ next.line.now ∷ lines_of next.after.now }
    ensures none { IfOk result (λ found. IfNone found (past.new ≡ past.old)) }
    ensures some { IfOk result (λ found. IfSome found (λ line. IsStep past.old past.new next.entry.line.now line)) }
{
    if past.runs() {
        return Ok(None);
    }
    if past.stage() < REQUIRED_LINES {
        return Ok(None);
    }
    match delivery_in(next.line) {
        Some(delivery) if can_deliver(past, delivery) => {
            Ok(Some(past.push_delivery(alloc, delivery, next.after)?))
        }
        _ => Ok(None),
    }
}

// Takes in the next line, where it is printed for a client's call or peek, and hands it out.
fn take_step<'a>(
    alloc: Global,
    past: &mut Past<'a>,
    next: Ahead<'a>,
) -> Result<Option<Line>, Memory>
    requires { ahead past.old ≡ next.line.now ∷ lines_of next.after.now }
    ensures none { IfOk result (λ found. IfNone found (past.new ≡ past.old)) }
    ensures some { IfOk result (λ found. IfSome found (λ line. IsStep past.old past.new next.entry.line.now line)) }
{
    if past.stage() < REQUIRED_LINES {
        return Ok(None);
    }
    match step_in(alloc, next.line)? {
        Some(step) if serves(past, step.client) => {
            Ok(Some(past.push_step(alloc, step, next.after)?))
        }
        _ => Ok(None),
    }
}

// Takes in the next line, where it is read in one pass, and hands it out.
fn take_printed<'a>(
    alloc: Global,
    past: &mut Past<'a>,
    next: Ahead<'a>,
) -> Result<Option<Line>, Memory>
    requires { ahead past.old ≡ next.line.now ∷ lines_of next.after.now }
    ensures none { IfOk result (λ found. IfNone found (past.new ≡ past.old)) }
    ensures some { IfOk result (λ found. IfSome found (λ line. IsStep past.old past.new next.entry.line.now line)) }
{
    match take_step(alloc, past, next)? {
        Some(line) => Ok(Some(line)),
        None => take_delivery(alloc, past, next),
    }
}

/// Takes in the next line, which may be skipped, and hands out the line of the script that it is, if
/// it is one.
pub(crate) fn take_line<'a>(
    alloc: Global,
    past: &mut Past<'a>,
    next: Ahead<'a>,
) -> Result<Option<Line>, Halt>
    requires { ahead past.old ≡ next.line.now ∷ lines_of next.after.now }
    ensures exact { Yields (λ _. said past.new) result (past_with past.old.runs (said past.old) next.entry.line.now) }
    ensures taken { OnOk result (past.new ≡ advanced past.old) }
    ensures line { IfOk result (λ line. lines_taken past.new ≡ cons_option line (lines_taken past.old)) }
{
    if let Some(line) = take_printed(alloc, past, next)? {
        return Ok(Some(line));
    }
    let text = text_said(text_at(next.line)?.as_bytes());
    if is_skipped(text) {
        past.skip(next.after);
        return Ok(None);
    }
    let saying = saying_at(alloc, past.runs(), past, text)?;
    Ok(past.push(alloc, saying, next.after)?)
}

/// The text ends here.
pub(crate) fn ended(past: &Past) -> Result<(), ScriptEnd>
    ensures { Gives (λ _. said past.now) result (end_of (ended (past.now.count + 1) (said past.now))) }
{
    let stage = past.stage();
    if stage < REQUIRED_LINES {
        let reason = Reason::Header(stage + 1);
        Err(ScriptEnd::Fault(ScriptFault {
            line: past.next_number(),
            reason,
        }))
    } else {
        Ok(())
    }
}
