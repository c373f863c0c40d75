ghost use Rattle.std.specs.Prelude.{◌≡◌, ◌≤◌, ◌↔◌, ℕ, min, length, IsErr, IfOk, OnErr, Contains, Some};
ghost use Rattle.std.specs.Io.{ReadsAtMost};
ghost use Rattle.std.specs.Io.KnownBytes.{ReadConsumes};
ghost use Rattle.gr_io.specs.Faults.{faults_after};
ghost use Rattle.gr_value.specs.Counts.{Rose, next_of};

use crate::calls::Calls;
use crate::{Failed, Source};
use std::marker::Model;

/// A source over bytes in memory, which gives them in pieces, and fails where it was told to.
#[derive(Drop)]
pub struct MemorySource {
    bytes: Vec<u8>,
    taken: usize,
    piece: usize,
    calls: Calls,
    faults: u64,
}

impl Model for MemorySource {
    ghost use Rattle.std.specs.Prelude.{◌≤◌, drop, vec_len};
    ghost use Rattle.gr_io.specs.Input.{Input};

    ghost Value = { Input };

    ghost view = { λ s. record { left = drop s.taken s.bytes.items; piece = s.piece; fails = s.calls.0; calls = s.calls.1; faults = s.faults } };

    ghost invariant = { λ s. (s.taken ≤ vec_len s.bytes) × (1 ≤ s.piece) };
}

impl MemorySource {
    /// `piece` is the most that one call gives, and `fails` are the calls that fail, counted from 1.
    pub fn new(bytes: Vec<u8>, piece: usize, fails: Vec<u64>) -> MemorySource
        requires { 1 ≤ piece }
        ensures left { result.left ≡ bytes.items }
        ensures piece { result.piece ≡ piece }
        ensures fails { (number : ℕ) → Contains result.fails number ↔ Contains fails.items number }
        ensures calls { result.calls ≡ 0 }
        ensures faults { result.faults ≡ 0 }
    {
        MemorySource {
            bytes,
            taken: 0,
            piece,
            calls: Calls::new(fails),
            faults: 0,
        }
    }
}

impl Source for MemorySource {
    ghost left = { λ source. Some source.left };

    ghost faults = { λ source. source.faults };

    fn read(&mut self, buf: &mut [u8]) -> Result<usize, Failed>
        ensures bound { ReadsAtMost result buf.new }
        ensures bytes { ReadConsumes (Some self.old.left) (Some self.new.left) result buf.new }
        ensures never_falls { self.old.faults ≤ self.new.faults }
        ensures cause { OnErr result (Rose self.old.faults self.new.faults) }

        ensures failed { IsErr result ↔ Contains self.old.fails (next_of self.old.calls) }
        ensures count { IfOk result (λ n. n ≡ min self.old.piece (min (length buf.new) (length self.old.left))) }
        ensures after { self.new ≡ record self.old { left = self.new.left; calls = next_of self.old.calls; faults = faults_after self.old.faults result } }
    {
        if self.calls.next_fails() {
            self.faults = self.faults.saturating_add(1);
            return Err(Failed);
        }
        let left = &self.bytes[self.taken..];
        let count = self.piece.min(buf.len().min(left.len()));
        buf[..count].copy_from_slice(&left[..count]);
        self.taken += count;
        Ok(count)
    }
}
