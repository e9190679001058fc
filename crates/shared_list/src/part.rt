ghost use Rattle.std.specs.Prelude.{◌≡◌, ◌++◌, ◌∷◌, [], ◌≤◌, IfErr, IfOk, OnOk, length, take, option_copied, slice_get, List};
ghost use Rattle.shared_list.specs.Blocks.{IsExact};

use std::alloc::{AllocError, Global};

/// A part of a list: a leaf, or a node, which has leaves as its parts.
pub trait Part<T: Drop>: Drop + Sized {
    /// Its items in order.
    ghost items: { Self → List T };

    /// The item at a place, or `None` behind the last.
    fn get(&self, at: usize) -> Option<&T>
        ensures { option_copied result ≡ slice_get (items self.now) at };
}

/// A part that can be ended with a further item.
pub trait Growing<T: Clone>: Part<T> {
    /// A part with one item.
    fn one(alloc: Global, item: T) -> Result<Self, AllocError>
        ensures { IfOk result (λ p. Self.items p ≡ item ∷ []) };

    /// Makes `item` the last one, at the place `at`. At an error the part is as it was.
    fn put_last(&mut self, alloc: Global, at: usize, item: T) -> Result<(), AllocError>
        requires clones { IsExact T.is_clone }
        requires within { at ≤ length (Self.items self.old) }
        ensures put { OnOk result (Self.items self.new ≡ take at (Self.items self.old) ++ item ∷ []) }
        ensures kept { IfErr result (λ e. Self.items self.new ≡ Self.items self.old) };

    /// A new part with the items before the place `at`, and `item` at that place.
    fn with_last(&self, alloc: Global, at: usize, item: T) -> Result<Self, AllocError>
        requires clones { IsExact T.is_clone }
        requires within { at ≤ length (Self.items self.now) }
        ensures { IfOk result (λ p. Self.items p ≡ take at (Self.items self.now) ++ item ∷ []) };
}
