ghost use Rattle.std.specs.Prelude.{◌≡◌, ◌++◌, map, filter, IfOk, OnOk};
ghost use Rattle.gr_report.specs.Own.{is_own, number_in, row_number, own_rows, sum_of, sum_text, own_line};

use crate::put::{put_counted, put_text};
use gr_history::ShardRecord;
use gr_stamp::{Change, Kind};
use gr_value::{Memory, Scalar, Value};
use itoa::{Buffer, Integer};
use std::alloc::Global;

// Whether the row is a client's own entry.
fn is_own(row: &Change) -> bool
    ensures { result ≡ is_own row.now }
{
    row.key.bytes().starts_with(b"c")
}

// The whole number in the field n, or 0 where there is none.
fn number_in(value: &Value) -> i64
    ensures { result ≡ number_in value.now }
{
    match value.field("n") {
        Some(Scalar::Int(number)) => *number,
        _ => 0,
    }
}

// What a row adds to the sum.
fn row_number(row: &Change) -> i64
    ensures { result ≡ row_number row.now }
{
    match &row.kind {
        Kind::Put(value) => number_in(value),
        Kind::Invalid | Kind::Remove => 0,
    }
}

// Puts the numbers of a shard's own rows last.
fn push_numbers(numbers: &mut Vec<i64>, rows: &[Change]) -> Result<(), Memory>
    ensures { OnOk result (numbers.new.items ≡ numbers.old.items ++ map row_number (filter is_own rows.now)) }
{
    for row in rows {
        if is_own(row) {
            numbers.push(row_number(row))?;
        }
    }
    Ok(())
}

// The numbers of all own rows of a member.
fn own_numbers(alloc: Global, shards: &[ShardRecord]) -> Result<Vec<i64>, Memory>
    ensures { IfOk result (λ numbers. numbers.items ≡ map row_number (own_rows shards.now)) }
{
    let mut numbers = Vec::new(alloc);
    for shard in shards {
        push_numbers(&mut numbers, shard.region.rows.as_slice())?;
    }
    Ok(numbers)
}

// Each number has 64 bits, and there are fewer than 2^63.
fn sum_of(numbers: &[i64]) -> i128
    ensures { result ≡ sum_of numbers.now }
{
    let mut sum = 0;
    for number in numbers {
        sum += i128::from(*number);
    }
    sum
}

#[tactic(auto, unfolding(crate::specs::Own::sum_text))]
fn put_sum(out: &mut Vec<u8>, numbers: &[i64]) -> Result<(), Memory>
    ensures { OnOk result (out.new.items ≡ out.old.items ++ sum_text numbers.now) }
{
    put_text(out, " sum ")?;
    put_text(out, Buffer::new().format(sum_of(numbers)))
}

#[tactic(auto, unfolding(crate::specs::Own::own_line))]
fn put_own_line(out: &mut Vec<u8>, numbers: &[i64]) -> Result<(), Memory>
    ensures { OnOk result (out.new.items ≡ out.old.items ++ own_line numbers.now) }
{
    put_counted(out, "own entries ", numbers.len() as u128)?;
    put_sum(out, numbers)?;
    put_text(out, "\n")
}

/// Puts the line of a member's own entries last.
pub fn put_own(alloc: Global, out: &mut Vec<u8>, shards: &[ShardRecord]) -> Result<(), Memory>
    ensures { OnOk result (out.new.items ≡ out.old.items ++ own_line (map row_number (own_rows shards.now))) }
{
    put_own_line(out, &own_numbers(alloc, shards)?)
}
