//! What a state has to be, that threads take in turns.
ghost use Rattle.std.specs.Prelude.{◌≡◌, List, length};

/// A state with a base, which no turn changes, and a list of entries, to which a turn adds one at most.
pub trait Story {
    type Base;

    type Entry;

    ghost base: { Self → Self.Base };

    ghost entries: { Self → List Self.Entry };

    /// How many entries there are. The entries themselves may stand in the proofs alone.
    fn count(&self) -> u64
        ensures { result ≡ length (entries self.now) };
}
