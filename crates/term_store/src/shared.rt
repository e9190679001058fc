ghost use Rattle.std.specs.Prelude.{◌≡◌, IfOk};

use std::alloc::{AllocError, Global};
use std::cmp::Ordering;
use std::marker::Model;
use std::sync::Arc;

/// A value that its clones share. Contracts see the value, and its order is the value's.
#[derive(Drop)]
pub struct Shared<X> {
    at: Arc<X>,
}

impl<X> Model for Shared<X> {
    ghost use Rattle.std.specs.Arc.{arc_value};

    ghost Value = { X };

    ghost coded = { X.code };

    ghost view = { λ s. arc_value s.at };
}

impl<X: Drop> Shared<X> {
    /// The value, to be shared. Fails for want of memory alone.
    pub fn new(alloc: Global, value: X) -> Result<Shared<X>, AllocError>
        ensures { IfOk result (λ s. s ≡ value) }
    {
        Ok(Shared {
            at: Arc::new(alloc, value)?,
        })
    }

    /// The value.
    pub fn get(&self) -> &X
        ensures { result.now ≡ self.now }
    {
        &self.at
    }
}

impl<X: Drop> Clone for Shared<X> {
    ghost is_clone = { λ a b. b ≡ a };

    fn clone(&self) -> Result<Shared<X>, AllocError> {
        Ok(Shared {
            at: Arc::try_clone(&self.at)?,
        })
    }
}

impl<X: PartialEq + Drop> PartialEq for Shared<X> {
    ghost eq = { X.eq };

    ghost laws = { X.laws };

    fn eq(&self, other: &Self) -> bool {
        self.get() == other.get()
    }
}

impl<X: Eq + Drop> Eq for Shared<X> {
    ghost laws = { X.Eq.laws };
}

impl<X: PartialOrd + Drop> PartialOrd for Shared<X> {
    ghost partial_cmp = { X.partial_cmp };

    ghost laws = { X.PartialOrd.laws };

    fn partial_cmp(&self, other: &Self) -> Option<Ordering> {
        self.get().partial_cmp(other.get())
    }
}

impl<X: Ord + Drop> Ord for Shared<X> {
    ghost cmp = { X.cmp };

    ghost total = { X.total };

    ghost matches_partial_cmp = { X.matches_partial_cmp };

    ghost matches_eq = { X.matches_eq };

    fn cmp(&self, other: &Self) -> Ordering {
        self.get().cmp(other.get())
    }
}
