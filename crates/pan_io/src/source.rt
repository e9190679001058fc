//! Where bytes come from.

ghost use Rattle.std.specs.Prelude.{◌≡◌, ℕ, List, Option, is_some, ◌≤◌, ◌-◌, ◌^◌};
ghost use Rattle.std.specs.Io.{ReadsAtMost};
ghost use Rattle.std.specs.Io.KnownBytes.{ReadConsumes};
ghost use Rattle.pan_io.specs.Faults.{HasCause};

/// A call to the outside failed. The count of faults of the object called says so too.
#[derive(Debug, Clone, Copy, PartialEq, Eq, Drop)]
pub struct Failed;

/// Where bytes come from.
pub trait Source {
    /// The bytes that are left, or `None` where the source does not tell them.
    ghost left: { Self → Option (List ℕ) };
    /// The number of failed calls so far. It stays at 2^64 - 1 once it is there.
    ghost faults: { Self → ℕ };

    /// Moves a prefix of what is left into the front of the buffer, and answers how many bytes.
    /// For a buffer that is not empty, 0 is the end of the input. `Failed` moves no byte.
    fn take(&mut self, into: &mut [u8]) -> Result<usize, Failed>
        ensures bound { ReadsAtMost result into.new }
        ensures bytes { ReadConsumes (left self.old) (left self.new) result into.new }
        ensures tells { is_some (left self.new) ≡ is_some (left self.old) }
        ensures cause { HasCause (faults self.old) (faults self.new) result };

    ghost most_faults: { (source : Self) → faults source ≤ 2 ^ 64 - 1 };
}
