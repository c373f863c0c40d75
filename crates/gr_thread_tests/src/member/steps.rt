// What each client does, step by step.
ghost use Rattle.std.specs.Prelude.{◌<◌};

use super::value_of;
use gr_history::{Ask, Reply};
use gr_member::Seen;
use gr_value::Key;
use std::alloc::Global;

// How many steps each client has; each is a call and a peek behind it.
pub(super) const STEPS: u32 = 20000;

// How many shards the member has.
pub(super) const SHARDS: u8 = 4;

// How many keys there are, each of one letter.
pub(super) const KEYS: usize = 16;

// What a client was told at a step.
#[derive(Drop)]
pub(super) struct Told {
    pub(super) reply: Option<Reply>,
    pub(super) seen: Option<Seen>,
}

// The number of the key that a client calls at a step.
pub(super) fn called(client: u8, step: u32) -> u8
    ensures { result < 16 }
{
    ((step % 16 * 5 + u32::from(client)) % 16) as u8
}

// The number of the key that it peeks behind that.
pub(super) fn peeked(client: u8, step: u32) -> u8
    ensures { result < 16 }
{
    ((step / 3 % 16 + u32::from(client) * 3) % 16) as u8
}

// The shard of the key of this number: of one letter it is what is left of its byte.
pub(super) fn shard_of(number: u8) -> u8
    requires { number < 16 }
{
    (b'a' + number) % SHARDS
}

// The key of this number.
pub(super) fn key_of(alloc: Global, number: u8) -> Option<Key>
    requires { number < 16 }
{
    Key::read(alloc, &[b'a' + number]).ok()
}

// The number of a key.
pub(super) fn number_of_key(key: &Key) -> Option<usize> {
    let letter = key.bytes().first()?;
    Some(usize::from(letter.checked_sub(b'a')?))
}

// What a client asks at a step: five puts, then a destroy, a put where nothing is present, and a get. Each
// value has a number of its own.
pub(super) fn ask_of(alloc: Global, client: u8, step: u32) -> Option<Ask> {
    let key = key_of(alloc, called(client, step))?;
    let number = u64::from(client) * 0x1_0000_0000 + u64::from(step);
    let Ok(value) = value_of(alloc, number) else {
        return None;
    };
    Some(match step % 8 {
        5 => Ask::Destroy { key },
        6 => Ask::PutIfAbsent { key, value },
        7 => Ask::Get { key },
        _ => Ask::Put { key, value },
    })
}
