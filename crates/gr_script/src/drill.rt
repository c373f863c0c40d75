ghost use Rattle.std.specs.Prelude.{◌≡◌, ◌≤◌, ◌%◌, ◌/◌, ◌<◌, ◌++◌, codes, IfOk, OnOk};
ghost use Rattle.std.specs.Fmt.{decimal};
ghost use Rattle.gr_script.specs.Drill.{drill_client, drill_key, drill_value, drill_ask, ask_by};

use crate::print_line::put_number;
use gr_history::Ask;
use gr_value::{Key, Memory, Value};
use std::alloc::Global;

/// The client of a step of the drill.
pub(crate) fn client_of(step: u32) -> u8
    requires { 1 ≤ step }
    ensures { result ≡ drill_client step }
{
    (1 + (step - 1) % 16) as u8
}

// The bytes of the key of a step, by the second number that is drawn for it.
fn put_key(client: u8, second: u32, out: &mut Vec<u8>) -> Result<(), Memory>
    ensures { OnOk result (out.new.items ≡ out.old.items ++ drill_key client second) }
{
    if second % 4 == 0 {
        out.push(b's')?;
        put_number(u64::from(second / 4 % 32), out)?;
    } else {
        out.push(b'c')?;
        put_number(u64::from(client), out)?;
        out.push(b'.')?;
        put_number(u64::from(second / 4 % 16), out)?;
    }
    Ok(())
}

// The key of a step. Its bytes are a key's, so that it can only lack memory.
fn key_of(alloc: Global, client: u8, second: u32) -> Result<Key, Memory>
    ensures { IfOk result (λ key. key ≡ drill_key client second) }
{
    let mut bytes = Vec::new(alloc);
    put_key(client, second, &mut bytes)?;
    match Key::read(alloc, &bytes) {
        Ok(key) => Ok(key),
        Err(_) => Err(Memory),
    }
}

fn put_value(first: u32, out: &mut Vec<u8>) -> Result<(), Memory>
    ensures { OnOk result (out.new.items ≡ out.old.items ++ (codes "{\"n\":" ++ (decimal (first % 1000) ++ codes "}"))) }
{
    out.extend_from_slice(b"{\"n\":")?;
    put_number(u64::from(first % 1000), out)?;
    out.push(b'}')?;
    Ok(())
}

// The value of a step, by the first number that is drawn for it. It can only lack memory.
#[tactic(auto, using(crate::proofs::Drills::drill_value_read))]
fn value_of(alloc: Global, first: u32) -> Result<Value, Memory>
    ensures { IfOk result (λ value. value ≡ drill_value first) }
{
    let mut bytes = Vec::new(alloc);
    put_value(first, &mut bytes)?;
    match Value::read(alloc, &bytes) {
        Ok(value) => Ok(value),
        Err(_) => Err(Memory),
    }
}

fn ask_by(choice: u32, key: Key, value: Value) -> Ask
    ensures { result ≡ ask_by choice key value }
{
    match choice {
        0..=3 => Ask::Put { key, value },
        4 => Ask::Get { key },
        5 => Ask::Destroy { key },
        6 => Ask::PutIfAbsent { key, value },
        _ => Ask::Replace { key, value },
    }
}

/// What the client asks at a step, by the two numbers that are drawn for it.
pub(crate) fn ask_of(alloc: Global, client: u8, first: u32, second: u32) -> Result<Ask, Memory>
    ensures { IfOk result (λ ask. ask ≡ drill_ask client first second) }
{
    let key = key_of(alloc, client, second)?;
    let value = value_of(alloc, first)?;
    Ok(ask_by(first % 8, key, value))
}
