ghost use Rattle.std.specs.Prelude.{◌≡◌, OnErr, ◌≤◌};
ghost use Rattle.std.specs.Io.{ReadsAtMost};
ghost use Rattle.std.specs.Io.KnownBytes.{ReadConsumes};
ghost use Rattle.gr_io.specs.Faults.{faults_after};
ghost use Rattle.gr_value.specs.Counts.{Rose};

use crate::{Failed, Source};
use std::io::Read;
use std::marker::Model;

/// A source over a reader of std. It has left what its reader has left, where that tells it, and it
/// counts each error of its reader, which takes nothing. Standard input tells nothing of its bytes.
#[derive(Drop)]
pub struct StdSource<R> {
    inner: R,
    faults: u64,
}

impl<R> Model for StdSource<R> {
    ghost use Rattle.gr_io.specs.Edges.{Edge};

    ghost Value = { Edge R };

    ghost view = { λ source. record { inner = source.inner; faults = source.faults } };
}

impl<R: Read> StdSource<R> {
    pub fn new(inner: R) -> StdSource<R>
        ensures { result ≡ record { inner = inner; faults = 0 } }
    {
        StdSource { inner, faults: 0 }
    }
}

impl<R: Read> Source for StdSource<R> {
    ghost left = { λ source. R.remaining source.inner };

    ghost faults = { λ source. source.faults };

    fn read(&mut self, buf: &mut [u8]) -> Result<usize, Failed>
        ensures bound { ReadsAtMost result buf.new }
        ensures bytes { ReadConsumes (R.remaining self.old.inner) (R.remaining self.new.inner) result buf.new }
        ensures never_falls { self.old.faults ≤ self.new.faults }
        ensures cause { OnErr result (Rose self.old.faults self.new.faults) }

        ensures counted { self.new.faults ≡ faults_after self.old.faults result }
    {
        match self.inner.read(buf) {
            Ok(count) => Ok(count),
            Err(_) => {
                self.faults = self.faults.saturating_add(1);
                Err(Failed)
            }
        }
    }
}
