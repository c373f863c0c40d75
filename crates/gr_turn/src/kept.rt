ghost use Rattle.std.specs.Prelude.{◌≡◌, ◌^◌, ◌<◌, List, length};

/// What stands behind a turn lock: a value that stands for a list of entries, which only grows, and for a
/// base, which stays.
pub trait Kept {
    type Entry;

    type Base;

    ghost entries: { Self → List Self.Entry };

    ghost base: { Self → Self.Base };

    /// The length of the list.
    fn len(&self) -> u64
        ensures is { result ≡ length (entries self.now) }
        ensures short { length (entries self.now) < 2 ^ 63 };
}
