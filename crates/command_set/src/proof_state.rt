//! Proof states of the server.

ghost use Rattle.std.specs.Prelude.{◌≡◌, IfOk};
ghost use Rattle.goal_state.specs.StoredState.{plain_state};

use goal_state::GoalState;
use ld_terms::Terms;
use std::alloc::{AllocError, Global};
use std::marker::Model;
use std::sync::Arc;

/// A legal goal state of the server, which its clones share. Contracts see it as plain data.
#[derive(Drop)]
pub struct ProofState<T: Terms> {
    at: Arc<GoalState<T>>,
}

impl<T: Terms> Model for ProofState<T> {
    ghost use Rattle.std.specs.Arc.{arc_value};
    ghost use Rattle.goal_state.specs.State.{State};
    ghost use Rattle.goal_state.specs.StoredState.{plain_state};
    ghost use Rattle.goal_state.specs.Codes.{coded_plain_state};

    ghost Value = { State };

    ghost coded = { coded_plain_state };

    ghost view = { λ s. plain_state T.means (arc_value s.at) };
}

impl<T: Terms + Drop> ProofState<T> {
    /// The state as the server keeps it. Fails for want of memory alone.
    pub fn new(alloc: Global, state: GoalState<T>) -> Result<ProofState<T>, AllocError>
        ensures { IfOk result (λ s. s ≡ plain_state T.means state) }
    {
        Ok(ProofState {
            at: Arc::new(alloc, state)?,
        })
    }

    /// The goal state.
    pub(crate) fn state(&self) -> &GoalState<T>
        ensures { plain_state T.means result.now ≡ self.now }
    {
        &self.at
    }
}

impl<T: Terms + Drop> Clone for ProofState<T> {
    ghost is_clone = { λ a b. b ≡ a };

    fn clone(&self) -> Result<ProofState<T>, AllocError> {
        Ok(ProofState {
            at: Arc::try_clone(&self.at)?,
        })
    }
}
