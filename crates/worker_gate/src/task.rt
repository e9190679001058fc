//! A job with its position in its batch, and a result with that position.
ghost use Rattle.std.specs.Prelude.{◌≡◌, ℕ, List, ◌<◌, ◌≤◌, [], ◌∷◌, length, slice_index, slice_index_or, slice_get, Some, IfOk, IfSome, vec_len, ◌^◌, ⊤};
ghost use Rattle.worker_gate.specs.Results.{Gave};

use crate::job::{Gate, Job};
use std::marker::{Brand, PhantomData};

/// The list of jobs in which a position counts, and what the gate says of a position that it was told of.
pub trait Batch<J> {
    ghost jobs: { List J };

    ghost told: { ℕ → Type 0 };
}

/// At `Brand` the proof of each call picks the list and what the gate says. The two members here are placeholders, which no call means.
impl<J> Batch<J> for Brand {
    ghost jobs = { [] };

    ghost told = { λ _. ⊤ };
}

/// A job with its position in the batch.
#[derive(Drop)]
pub struct Task<J: Job, K: Batch<J>> {
    pub at: u32,
    pub job: J,
    pub of: PhantomData<K>,
    ghost placed: { slice_get K.jobs at ≡ Some job },
}

/// The result of the job at a position.
#[derive(Drop)]
pub struct Answer<D> {
    pub at: u32,
    pub done: D,
}

impl<J: Job, K: Batch<J>> Task<J, K> {
    /// Tells the gate of the job's position, and runs the job.
    pub fn run<G: Gate>(self, gate: &G, pass: u32) -> Answer<J::Done>
        requires told { (p : ℕ) → G.told pass p → K.told p }
        ensures at { result.at ≡ self.at }
        ensures gave { Gave K.jobs J.gives K.told result.at result.done }
    {
        gate.start(pass, self.at);
        self.answer()
    }

    /// Runs the job, of which the gate was told.
    fn answer(self) -> Answer<J::Done>
        requires { K.told self.at }
        ensures at { result.at ≡ self.at }
        ensures gave { Gave K.jobs J.gives K.told result.at result.done }
    {
        let Task { at, job, of: _ } = self;
        let done = job.run();
        Answer { at, done }
    }
}
