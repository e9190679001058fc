ghost use Rattle.std.specs.Prelude.{◌≡◌, IfOk};

use std::alloc::{AllocError, Global};
use std::marker::Model;
use std::sync::Arc;

/// A value that its clones share. Contracts see the value, so a clone equals its source.
#[derive(Drop)]
pub struct Kept<X> {
    at: Arc<X>,
}

impl<X> Model for Kept<X> {
    ghost use Rattle.std.specs.Arc.{arc_value};

    ghost Value = { X };

    ghost coded = { X.code };

    ghost view = { λ k. arc_value k.at };
}

impl<X: Drop> Kept<X> {
    /// The value, to be shared.
    pub fn new(alloc: Global, value: X) -> Result<Kept<X>, AllocError>
        ensures { IfOk result (λ k. k ≡ value) }
    {
        Ok(Kept {
            at: Arc::new(alloc, value)?,
        })
    }

    /// The value.
    pub fn get(&self) -> &X
        ensures { result.now ≡ self.now }
    {
        &self.at
    }
}

impl<X: Drop> Clone for Kept<X> {
    ghost is_clone = { λ a b. b ≡ a };

    fn clone(&self) -> Result<Kept<X>, AllocError> {
        Ok(Kept {
            at: Arc::try_clone(&self.at)?,
        })
    }
}
