//! Where links come from.

ghost use Rattle.std.specs.Prelude.{◌≡◌, ℕ, List, Option, ◌≤◌, ◌-◌, ◌^◌, OnOk, OnErr, IfOk, IsErr, is_some};
ghost use Rattle.pan_io.specs.Faults.{HasCause};
ghost use Rattle.pan_io.specs.Doors.{ListensOn, HasNoLink, GivesFirst, HasTakenNone, RoseAtAccept};

use crate::sink::Sink;
use crate::source::{Failed, Source};

/// Where links come from, each of an input and an output. One count of faults serves both calls.
pub trait Doors {
    /// The input of a link.
    type In: Source + Send;
    /// The output of a link.
    type Out: Sink + Send;

    /// The address that the doors listen on, or `None` where they do not tell it. Before the first
    /// `Ok` of `listen` nothing is said of it.
    ghost listens_on: { Self → Option (List ℕ) };
    /// The links that are left, each with the bytes of its input, or `None` where the doors do not
    /// tell them.
    ghost links: { Self → Option (List (List ℕ)) };
    /// The number of failed calls so far. It stays at 2^64 - 1 once it is there.
    ghost faults: { Self → ℕ };

    /// Listens on the address. The links stay as they were.
    fn listen(&mut self, address: &str) -> Result<(), Failed>
        ensures listens { OnOk result (ListensOn (listens_on self.new) address.now) }
        ensures tells { is_some (listens_on self.new) ≡ is_some (listens_on self.old) }
        ensures links { links self.new ≡ links self.old }
        ensures cause { HasCause (faults self.old) (faults self.new) result };

    /// Gives the next link, of whose halves no call has failed, and nothing was put into the
    /// output. Where the links are told and none is left, it answers `Failed`, and the count stays.
    /// After another `Failed` nothing is said of which links are left.
    fn accept(&mut self) -> Result<(Self::In, Self::Out), Failed>
        ensures link { IfOk result (λ halves. GivesFirst (links self.old) (Self.In.left halves.0) (links self.new)) }
        ensures no_input_fault { IfOk result (λ halves. Self.In.faults halves.0 ≡ 0) }
        ensures no_output_fault { IfOk result (λ halves. Self.Out.faults halves.1 ≡ 0) }
        ensures none_taken { IfOk result (λ halves. HasTakenNone (Self.Out.taken halves.1)) }
        ensures address { listens_on self.new ≡ listens_on self.old }
        ensures tells { is_some (links self.new) ≡ is_some (links self.old) }
        ensures none { HasNoLink (links self.old) → IsErr result }
        ensures still_none { HasNoLink (links self.old) → HasNoLink (links self.new) }
        ensures same_count { HasNoLink (links self.old) → faults self.new ≡ faults self.old }
        ensures later { faults self.old ≤ faults self.new }
        ensures cause { OnErr result (RoseAtAccept (links self.old) (faults self.old) (faults self.new)) };

    ghost most_faults: { (doors : Self) → faults doors ≤ 2 ^ 64 - 1 };
}
