ghost use Rattle.std.specs.Prelude.{◌≡◌, ◌<◌, OnErr, ◌≤◌, IfOk, length};
ghost use Rattle.std.specs.Io.{WritesAtMost};
ghost use Rattle.std.specs.Io.KnownBytes.{WriteAppends};
ghost use Rattle.gr_io.specs.Faults.{faults_after};
ghost use Rattle.gr_value.specs.Counts.{Rose};

use crate::{Failed, Sink};
use std::io::Write;
use std::marker::Model;

/// A sink over a writer of std. It holds what its writer holds, where that tells it, and it counts each
/// error of its writer, which appends nothing. A writer that takes nothing has failed. Standard output
/// tells nothing of its bytes.
#[derive(Drop)]
pub struct StdSink<W> {
    inner: W,
    faults: u64,
}

impl<W> Model for StdSink<W> {
    ghost use Rattle.gr_io.specs.Edges.{Edge};

    ghost Value = { Edge W };

    ghost view = { λ sink. record { inner = sink.inner; faults = sink.faults } };
}

impl<W: Write> StdSink<W> {
    pub fn new(inner: W) -> StdSink<W>
        ensures { result ≡ record { inner = inner; faults = 0 } }
    {
        StdSink { inner, faults: 0 }
    }

    /// The writer that it was made of.
    pub fn into_inner(self) -> W
        ensures { result ≡ self.inner }
    {
        self.inner
    }
}

impl<W: Write> Sink for StdSink<W> {
    ghost held = { λ sink. W.contents sink.inner };

    ghost faults = { λ sink. sink.faults };

    fn write(&mut self, buf: &[u8]) -> Result<usize, Failed>
        ensures bound { WritesAtMost result buf.now }
        ensures some { IfOk result (λ n. 0 < length buf.now → 0 < n) }
        ensures bytes { WriteAppends (W.contents self.old.inner) (W.contents self.new.inner) result buf.now }
        ensures never_falls { self.old.faults ≤ self.new.faults }
        ensures cause { OnErr result (Rose self.old.faults self.new.faults) }

        ensures counted { self.new.faults ≡ faults_after self.old.faults result }
    {
        match self.inner.write(buf) {
            Ok(count) if count > 0 || buf.is_empty() => Ok(count),
            _ => {
                self.faults = self.faults.saturating_add(1);
                Err(Failed)
            }
        }
    }
}
