// What the lock asks of its value.
ghost use Rattle.std.specs.Prelude.{◌≡◌, ℕ, List, length};

/// A value that keeps its story: a list of entries, each made by a pass with a number, and a ground, plain data that
/// no turn changes.
pub trait Storied {
    /// One entry of the list.
    type Entry;

    /// The part of the value that stays as it was when the lock was opened, such as how many entries have room.
    type Ground;

    // the list, the oldest entry first
    ghost entries: { Self → List Self.Entry };

    // the number of the pass that made an entry
    ghost pass_of: { Self.Entry → ℕ };

    ghost ground_of: { Self → Self.Ground };

    /// How many entries the list has.
    fn length(&self) -> u64
        ensures { result ≡ length (entries self.now) };
}
