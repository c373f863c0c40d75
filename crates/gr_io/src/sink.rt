ghost use Rattle.std.specs.Prelude.{◌≤◌, ◌<◌, ℕ, List, Option, OnErr, IfOk, length};
ghost use Rattle.std.specs.Io.{WritesAtMost};
ghost use Rattle.std.specs.Io.KnownBytes.{WriteAppends};
ghost use Rattle.gr_value.specs.Counts.{Rose};

use crate::Failed;

/// Where bytes go.
pub trait Sink {
    // The bytes that it holds, where the sink tells them.
    ghost held: { Self → Option (List ℕ) };

    // How many faults it has counted.
    ghost faults: { Self → ℕ };

    /// Takes the first bytes of `buf` and says how many.
    fn write(&mut self, buf: &[u8]) -> Result<usize, Failed>
        ensures bound { WritesAtMost result buf.now }
        ensures some { IfOk result (λ n. 0 < length buf.now → 0 < n) }
        ensures bytes { WriteAppends (held self.old) (held self.new) result buf.now }
        ensures never_falls { faults self.old ≤ faults self.new }
        ensures cause { OnErr result (Rose (faults self.old) (faults self.new)) };
}
