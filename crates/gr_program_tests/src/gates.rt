// What goes on at one time in a run: a gate holds a step until another thread has come as far as it must.
use gr_history::Answer;
use gr_io::{MemorySink, MemorySource};
use gr_session::Gate;
use gr_top::georep;
use gr_value::{Scalar, Value};
use std::alloc::Global;
use std::sync::Wait;
use std::sync::atomic::{AtomicBool, Ordering};
use std::test::Fail;
use std::thread::{self, Threads};

/// How often the processor is yielded until a step is held no longer, and the test fails.
const TURNS: u32 = 1_000_000;

/// The same for a peek, which is held so that peeks don't run out at once.
const PEEK_TURNS: u32 = 1_000;

/// How many peeks there are.
const PEEKS: usize = 1_000;

fn raise(flag: &AtomicBool) {
    flag.store(true, Ordering::SeqCst);
}

fn is_raised(flag: &AtomicBool) -> bool {
    flag.load(Ordering::SeqCst)
}

// Whether the flag was raised within so many turns.
fn was_raised(flag: &AtomicBool, turns: u32) -> bool {
    for _ in 0..turns {
        if is_raised(flag) {
            return true;
        }
        thread::yield_now();
    }
    false
}

/// Holds the step of each of two clients until the other one has come to its own.
#[derive(Drop)]
struct Meeting {
    first: AtomicBool,
    second: AtomicBool,
    gave_up: AtomicBool,
}

impl Gate for Meeting {
    fn before(&self, client: u8, _seq: u32) {
        let (own, other) = if client == 1 {
            (&self.first, &self.second)
        } else {
            (&self.second, &self.first)
        };
        raise(own);
        if !was_raised(other, TURNS) {
            raise(&self.gave_up);
        }
    }

    fn after(&self, _client: u8, _seq: u32, _answer: &Answer) {}
}

/// Holds the second step of client 1 until client 2 has peeked at what its first one put.
#[derive(Drop)]
struct Peeked {
    seen: AtomicBool,
    gave_up: AtomicBool,
}

fn has_x(value: &Value) -> bool {
    matches!(value.field("x"), Some(Scalar::Int(1)))
}

impl Gate for Peeked {
    fn before(&self, client: u8, seq: u32) {
        if client == 2 {
            let _ = was_raised(&self.seen, PEEK_TURNS);
        } else if seq == 2 && !was_raised(&self.seen, TURNS) {
            raise(&self.gave_up);
        }
    }

    fn after(&self, client: u8, _seq: u32, answer: &Answer) {
        if let Answer::Peeked {
            value: Some(value),
            at: _,
        } = answer
        {
            if client == 2 && has_x(value) {
                raise(&self.seen);
            }
        }
    }
}

// What a run of the script prints, where it ends with status 0.
fn report_of<R: Threads + Wait + Sync, G: Gate>(
    rt: &R,
    alloc: Global,
    script: Vec<u8>,
    gate: &G,
) -> Result<MemorySink, Fail> {
    let words = vec![in alloc; String::from_str(alloc, "run")?]?;
    let mut source = MemorySource::new(script, usize::MAX, Vec::new(alloc));
    let mut sink = MemorySink::new(alloc, 65_536, usize::MAX, Vec::new(alloc))
        .ok()
        .ok_or("memory")?;
    let outcome = georep(rt, alloc, words.as_slice(), &mut source, &mut sink, gate);
    if outcome.status == 0 {
        Ok(sink)
    } else {
        Err(Fail::from("another status"))
    }
}

#[test]
fn two_clients_are_at_their_steps_at_one_time(rt: HostRuntime) -> Result<(), Fail> {
    let gate = Meeting {
        first: AtomicBool::new(false),
        second: AtomicBool::new(false),
        gave_up: AtomicBool::new(false),
    };
    let script =
        "georep 1\nregion /r\nmembers 2 2\nshards 2\nclient 1 at 1\nclient 2 at 1\n1 put o1 {}\n2 put o2 {}\n";
    let report = report_of(
        &rt,
        rt.alloc(),
        script.as_bytes().to_vec(rt.alloc())?,
        &gate,
    )?;
    assert!(rt; !is_raised(&gate.gave_up));
    assert_eq!(rt;
        report.held(),
        b"replies\n1.1 null\n2.1 null\nregions\n\
          member 1 entries 2 tombstones 0 conflated 0 repeats 0\no1 {} 1.1.1\no2 {} 1.1.1\n\
          member 2 entries 2 tombstones 0 conflated 0 repeats 0\no1 {} 1.1.1\no2 {} 1.1.1\nend\n"
            .as_slice()
    );
    Ok(())
}

#[test]
fn a_change_comes_to_another_member_while_its_client_is_at_a_step(
    rt: HostRuntime,
) -> Result<(), Fail> {
    let gate = Peeked {
        seen: AtomicBool::new(false),
        gave_up: AtomicBool::new(false),
    };
    let heading =
        "georep 1\nregion /r\nmembers 2 2\nshards 1\nclient 1 at 1\nclient 2 at 2\n1 put a {\"x\":1}\n1 get a\n";
    let mut script = heading.as_bytes().to_vec(rt.alloc())?;
    for _ in 0..PEEKS {
        script.extend_from_slice(b"2 peek a\n")?;
    }
    let report = report_of(&rt, rt.alloc(), script, &gate)?;
    assert!(rt; is_raised(&gate.seen));
    assert!(rt; !is_raised(&gate.gave_up));
    assert!(rt;
        report
            .held()
            .starts_with(b"replies\n1.1 null\n1.2 {\"x\":1}\n2.1 ")
    );
    Ok(())
}
