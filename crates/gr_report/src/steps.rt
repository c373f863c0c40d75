ghost use Rattle.std.specs.Prelude.{◌≡◌, ◌++◌, OnOk, option_copied};
ghost use Rattle.gr_report.specs.Steps.{called, is_get, is_put, is_put_if_absent, is_replace, is_destroy, step_counts, count_text, steps_line};

use crate::counts::sum;
use crate::put::{put_counted, put_number, put_text};
use gr_history::Ask;
use gr_script::{Act, Line};
use gr_value::Memory;

/// How many steps of each kind a script has.
#[derive(Clone, Copy)]
pub struct StepCounts {
    pub gets: u128,
    pub puts: u128,
    pub puts_if_absent: u128,
    pub replaces: u128,
    pub destroys: u128,
}

// What a line asks for, where it is a step that calls.
fn called(line: &Line) -> Option<&Ask>
    ensures { option_copied result ≡ called line.now }
{
    match line {
        Line::Step {
            act: Act::Call(ask),
            ..
        } => Some(ask),
        _ => None,
    }
}

fn is_get(ask: Option<&Ask>) -> bool
    ensures { result ≡ is_get (option_copied ask.entry) }
{
    matches!(ask, Some(Ask::Get { .. }))
}

fn is_put(ask: Option<&Ask>) -> bool
    ensures { result ≡ is_put (option_copied ask.entry) }
{
    matches!(ask, Some(Ask::Put { .. }))
}

fn is_put_if_absent(ask: Option<&Ask>) -> bool
    ensures { result ≡ is_put_if_absent (option_copied ask.entry) }
{
    matches!(ask, Some(Ask::PutIfAbsent { .. }))
}

fn is_replace(ask: Option<&Ask>) -> bool
    ensures { result ≡ is_replace (option_copied ask.entry) }
{
    matches!(ask, Some(Ask::Replace { .. }))
}

fn is_destroy(ask: Option<&Ask>) -> bool
    ensures { result ≡ is_destroy (option_copied ask.entry) }
{
    matches!(ask, Some(Ask::Destroy { .. }))
}

/// Counts the steps of each kind.
pub fn count_steps(lines: &[Line]) -> StepCounts
    ensures { result ≡ step_counts lines.now }
{
    let mut counts = StepCounts {
        gets: 0,
        puts: 0,
        puts_if_absent: 0,
        replaces: 0,
        destroys: 0,
    };
    for line in lines {
        let ask = called(line);
        counts.gets = sum(counts.gets, u64::from(is_get(ask)));
        counts.puts = sum(counts.puts, u64::from(is_put(ask)));
        counts.puts_if_absent = sum(counts.puts_if_absent, u64::from(is_put_if_absent(ask)));
        counts.replaces = sum(counts.replaces, u64::from(is_replace(ask)));
        counts.destroys = sum(counts.destroys, u64::from(is_destroy(ask)));
    }
    counts
}

// Puts the word of a kind last, and how many there are.
#[tactic(auto, unfolding(crate::specs::Steps::count_text))]
fn put_count(out: &mut Vec<u8>, word: &str, count: u128) -> Result<(), Memory>
    ensures { OnOk result (out.new.items ≡ out.old.items ++ count_text word.now count) }
{
    put_text(out, " ")?;
    put_text(out, word)?;
    put_text(out, " ")?;
    put_number(out, count)
}

/// Puts the line of the steps last.
#[tactic(auto, unfolding(crate::specs::Steps::steps_line))]
pub fn put_steps(out: &mut Vec<u8>, counts: StepCounts) -> Result<(), Memory>
    ensures { OnOk result (out.new.items ≡ out.old.items ++ steps_line counts) }
{
    put_counted(out, "steps get ", counts.gets)?;
    put_count(out, "put", counts.puts)?;
    put_count(out, "putIfAbsent", counts.puts_if_absent)?;
    put_count(out, "replace", counts.replaces)?;
    put_count(out, "destroy", counts.destroys)?;
    put_text(out, "\n")
}
