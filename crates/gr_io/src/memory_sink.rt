ghost use Rattle.std.specs.Prelude.{◌≡◌, ◌≤◌, ◌<◌, ◌-◌, ◌↔◌, ℕ, [], min, length, IsErr, IfOk, OnErr, Contains, Some};
ghost use Rattle.std.specs.Io.{WritesAtMost};
ghost use Rattle.std.specs.Io.KnownBytes.{WriteAppends};
ghost use Rattle.gr_io.specs.Faults.{faults_after};
ghost use Rattle.gr_value.specs.Counts.{Rose, next_of};

use crate::calls::Calls;
use crate::{Failed, Sink};
use gr_value::Memory;
use std::alloc::Global;
use std::marker::Model;

/// A sink into memory, which takes bytes in pieces, and fails where it was told to or is full.
#[derive(Drop)]
pub struct MemorySink {
    held: Vec<u8>,
    room: usize,
    piece: usize,
    calls: Calls,
    faults: u64,
}

impl Model for MemorySink {
    ghost use Rattle.std.specs.Prelude.{◌≤◌, vec_len};
    ghost use Rattle.std.specs.Vec.{vec_capacity};
    ghost use Rattle.gr_io.specs.Output.{Output};

    ghost Value = { Output };

    ghost view = { λ s. record { held = s.held.items; room = s.room; piece = s.piece; fails = s.calls.0; calls = s.calls.1; faults = s.faults } };

    ghost invariant = { λ s. (vec_len s.held ≤ s.room) × (s.room ≤ vec_capacity s.held) × (1 ≤ s.piece) };
}

impl MemorySink {
    /// `room` is the most that it takes in all and `piece` the most that one call takes. `fails` are
    /// the calls that fail, counted from 1. The memory for `room` bytes is taken here.
    pub fn new(
        alloc: Global,
        room: usize,
        piece: usize,
        fails: Vec<u64>,
    ) -> Result<MemorySink, Memory>
        requires { 1 ≤ piece }
        ensures held { IfOk result (λ sink. sink.held ≡ []) }
        ensures room { IfOk result (λ sink. sink.room ≡ room) }
        ensures piece { IfOk result (λ sink. sink.piece ≡ piece) }
        ensures fails { IfOk result (λ sink. (number : ℕ) → Contains sink.fails number ↔ Contains fails.items number) }
        ensures calls { IfOk result (λ sink. sink.calls ≡ 0) }
        ensures faults { IfOk result (λ sink. sink.faults ≡ 0) }
    {
        Ok(MemorySink {
            held: Vec::with_capacity(alloc, room)?,
            room,
            piece,
            calls: Calls::new(fails),
            faults: 0,
        })
    }

    /// The bytes that it took.
    pub fn held(&self) -> &[u8]
        ensures { result.now ≡ self.now.held }
    {
        self.held.as_slice()
    }
}

impl Sink for MemorySink {
    ghost use Rattle.gr_io.specs.Output.{Refuses};

    ghost held = { λ sink. Some sink.held };

    ghost faults = { λ sink. sink.faults };

    fn write(&mut self, buf: &[u8]) -> Result<usize, Failed>
        ensures bound { WritesAtMost result buf.now }
        ensures some { IfOk result (λ n. 0 < length buf.now → 0 < n) }
        ensures bytes { WriteAppends (Some self.old.held) (Some self.new.held) result buf.now }
        ensures never_falls { self.old.faults ≤ self.new.faults }
        ensures cause { OnErr result (Rose self.old.faults self.new.faults) }

        ensures failed { IsErr result ↔ Refuses self.old buf.now }
        ensures count { IfOk result (λ n. n ≡ min self.old.piece (min (length buf.now) (self.old.room - length self.old.held))) }
        ensures after { self.new ≡ record self.old { held = self.new.held; calls = next_of self.old.calls; faults = faults_after self.old.faults result } }
    {
        let room = self.room - self.held.len();
        let fails = self.calls.next_fails();
        if fails || (room == 0 && !buf.is_empty()) {
            self.faults = self.faults.saturating_add(1);
            return Err(Failed);
        }
        let count = self.piece.min(buf.len().min(room));
        self.held.extend_from_slice(&buf[..count]).unwrap();
        Ok(count)
    }
}
