// How a thread that found nothing to do waits.
use std::sync::Wait;
use std::sync::atomic::AtomicU64;
use std::thread;
use std::time::Duration;

// So many times in a row a thread yields the processor.
const YIELDS: u32 = 2;

// How long it rests then, in microseconds.
const REST: u64 = 100;

/// How often in a row a thread found nothing to do: no room for its mail, or no mail to take. A thread that yields
/// again and again takes a processor from those who have something to do, and the system can't tell it from them.
#[derive(Drop)]
pub struct Rest {
    times: u32,
}

impl Rest {
    pub fn new() -> Rest {
        Rest { times: 0 }
    }

    /// Where something was done, counts from the beginning.
    pub fn progress(&mut self, made: bool) {
        if made {
            self.times = 0;
        }
    }

    /// Lets others go first: yields the processor at the first two times in a row, and rests for 100 µs at the
    /// third.
    pub fn wait<R: Wait>(&mut self, rt: &R) {
        if self.times < YIELDS {
            self.times += 1;
            thread::yield_now();
        } else {
            self.times = 0;
            AtomicU64::new(0).park_timeout(rt, 0, Duration::from_micros(REST));
        }
    }
}
