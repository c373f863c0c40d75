// What a history says of one client's steps, read deed by deed.
use super::steps::{KEYS, STEPS, Told, called, number_of_key, peeked, shard_of};
use super::{number_in, number_of};
use gr_history::{Ask, Deed, Reply};
use gr_member::Seen;

// What each key has after so many deeds of a history.
#[derive(Drop)]
struct Replay {
    at: usize,
    numbers: [Option<i64>; KEYS],
}

impl Replay {
    fn new() -> Replay {
        Replay {
            at: 0,
            numbers: [None; KEYS],
        }
    }

    // What an ask makes of its key.
    fn ask(&mut self, ask: &Ask) {
        let Some(key) = number_of_key(ask.key()) else {
            return;
        };
        let Some(number) = self.numbers.get_mut(key) else {
            return;
        };
        match ask {
            Ask::Put { value, .. } => *number = number_in(value),
            Ask::PutIfAbsent { value, .. } if number.is_none() => *number = number_in(value),
            Ask::Destroy { .. } => *number = None,
            _ => (),
        }
    }

    // Reads these deeds.
    fn read(&mut self, deeds: &[Deed]) {
        for deed in deeds {
            if let Deed::Call { ask, .. } = deed {
                self.ask(ask);
            }
        }
    }

    // Reads on to a place, and answers whether it isn't behind and no deed on the way is the client's.
    fn go_to(&mut self, deeds: &[Deed], client: u8, place: usize) -> bool {
        let Some(deeds) = deeds.get(self.at..place) else {
            return false;
        };
        self.read(deeds);
        self.at = place;
        deeds.iter().all(|deed| !deed.is_of(client))
    }

    // Reads the client's next deed, and answers whether it is this step's with what was told of it.
    fn calls(&mut self, deeds: &[Deed], client: u8, step: u32, told: &Told) -> bool {
        let Some(deeds) = deeds.get(self.at..) else {
            return false;
        };
        let Some(ahead) = deeds.iter().position(|deed| deed.is_of(client)) else {
            return false;
        };
        self.read(&deeds[..=ahead]);
        self.at = self.at.saturating_add(ahead).saturating_add(1);
        is_step(&deeds[ahead], client, step, told)
    }

    // Reads on to the place of a peek, and answers whether the key has there what was seen.
    fn sees(&mut self, deeds: &[Deed], client: u8, key: u8, seen: &Seen) -> bool {
        let own = self.go_to(deeds, client, seen.at as usize);
        own && self.numbers.get(usize::from(key)) == Some(&number_of(seen))
    }
}

// Whether two replies are the same.
fn same(one: &Reply, two: &Reply) -> bool {
    match (one, two) {
        (Reply::Value(one), Reply::Value(two)) => one.same(two),
        (Reply::Null, Reply::Null) | (Reply::Done, Reply::Done) => true,
        (Reply::NotFound, Reply::NotFound) => true,
        _ => false,
    }
}

// Whether a deed is the client's call at a step, with what was told of it.
fn is_step(deed: &Deed, client: u8, step: u32, told: &Told) -> bool {
    match (deed, &told.reply) {
        (
            Deed::Call {
                seq,
                ask,
                reply,
                ..
            },
            Some(told),
        ) => {
            let key = usize::from(called(client, step));
            *seq == step && number_of_key(ask.key()) == Some(key) && same(reply, told)
        }
        _ => false,
    }
}

// Whether a shard's history has each of the client's calls there once, in order, each with its reply, and
// says at the place of each of its peeks there what was seen; and whether the place is behind all calls of
// the client before the peek, and before all later ones.
pub(super) fn tells(deeds: &[Deed], shard: u8, client: u8, told: &[Told]) -> bool {
    let mut replay = Replay::new();
    for step in 0..STEPS {
        let Some(told) = told.get(step as usize) else {
            return false;
        };
        let (call, peek) = (called(client, step), peeked(client, step));
        if shard_of(call) == shard && !replay.calls(deeds, client, step, told) {
            return false;
        }
        let Some(seen) = &told.seen else { return false };
        if shard_of(peek) == shard && !replay.sees(deeds, client, peek, seen) {
            return false;
        }
    }
    replay.go_to(deeds, client, deeds.len())
}
