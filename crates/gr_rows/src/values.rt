use crate::running::no_memory;
use crate::scripts::{bad_case, bytes_of};
use gr_value::{Key, KeyFault, Value, ValueFault};
use std::alloc::Global;
use std::cmp::Ordering;
use std::{io, str};

// What a value's text prints, or why it is none.
fn printed(alloc: Global, text: &[u8]) -> io::Result<String> {
    match Value::read(alloc, text) {
        Ok(value) => {
            let mut out = Vec::new(alloc);
            value.print_to(alloc, &mut out).map_err(|_| no_memory())?;
            let out = str::from_utf8(out.as_slice()).map_err(|_| bad_case())?;
            Ok(String::from_str(alloc, out)?)
        }
        Err(ValueFault::Memory) => Err(no_memory()),
        Err(fault) => Ok(format!(in alloc; "{fault}")?),
    }
}

// Whether bytes are a key, or why they are none.
fn key_read(alloc: Global, bytes: &[u8]) -> io::Result<String> {
    match Key::read(alloc, bytes) {
        Ok(_) => Ok(String::from_str(alloc, "key")?),
        Err(KeyFault::Memory) => Err(no_memory()),
        Err(fault) => Ok(format!(in alloc; "{fault}")?),
    }
}

fn key_of(alloc: Global, bytes: &str) -> io::Result<Key> {
    Key::read(alloc, bytes.as_bytes()).map_err(|_| bad_case())
}

fn ordering_word(ordering: Ordering) -> &'static str {
    match ordering {
        Ordering::Less => "less",
        Ordering::Equal => "same",
        Ordering::Greater => "greater",
    }
}

// How a key stands to another. They are parted by a tab.
fn ordered(alloc: Global, keys: &str) -> io::Result<String> {
    let (one, other) = keys.split_once('\t').ok_or_else(bad_case)?;
    let ordering = key_of(alloc, one)?.cmp(&key_of(alloc, other)?);
    Ok(String::from_str(alloc, ordering_word(ordering))?)
}

// The shard of a key, of so many. The number comes first.
fn shard(alloc: Global, case: &str) -> io::Result<String> {
    let (shards, key) = case.split_once('\t').ok_or_else(bad_case)?;
    let shards = shards.parse::<u8>().map_err(|_| bad_case())?;
    if shards < 1 || shards > 32 {
        return Err(bad_case());
    }
    let shard = key_of(alloc, key)?.shard(shards);
    Ok(format!(in alloc; "{shard}")?)
}

/// What is told of a value or a key. The case is a word, a tab, and what the word needs: the pieces of a
/// value or of a key, two keys, or a number of shards and a key.
pub fn value_answer(alloc: Global, case: &str) -> io::Result<String> {
    let (word, rest) = case.split_once('\t').unwrap_or((case, ""));
    match word {
        "value" => printed(alloc, bytes_of(alloc, rest)?.as_slice()),
        "key" => key_read(alloc, bytes_of(alloc, rest)?.as_slice()),
        "order" => ordered(alloc, rest),
        "shard" => shard(alloc, rest),
        _ => Err(bad_case()),
    }
}
