// What a value says of itself to be shared by turns.
ghost use Rattle.std.specs.Prelude.{◌≡◌, ℕ, List, length};

/// A value that keeps a history of what was done to it.
pub trait Keeps: Drop + Send {
    /// What one turn may add to the history.
    type Entry;

    /// What no turn changes: plain data.
    type Fixed;

    /// What was done to the value, in order.
    ghost history: { Self → List Self.Entry };
    /// The number of the seat that made the entry.
    ghost number: { Self.Entry → ℕ };
    /// What no turn changes.
    ghost fixed: { Self → Self.Fixed };

    /// The length of the history. Takes no memory.
    fn count(&self) -> u64
        ensures { result ≡ length (history self.now) };
}
