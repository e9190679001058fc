//! What a job gives, and what hears of each job before it runs.
ghost use Rattle.std.specs.Prelude.{ℕ, ⊤};

/// A job, which runs once.
pub trait Job: Send + Drop {
    /// The result, which goes back to the caller's thread.
    type Done: Send + Drop;

    // The results that `run` may give: the job's meaning.
    ghost gives: { Self → Self.Done → Type 0 };

    /// Does the work, on whichever worker has the job, and gives one of the results that the job may give. It uses the job up, so no job runs twice.
    fn run(self) -> Self::Done
        ensures { gives self result };
}

/// Hears of each job before it runs.
pub trait Gate: Sync {
    // What holds once `start` has returned, of the pass and the job's position. A gate that has nothing to say leaves it out.
    ghost told: { ℕ → ℕ → Type 0 } = { λ _ _. ⊤ };

    /// Is called once before each job, with the number of the pass for which the jobs run and the job's position among them, from 0. It returns.
    fn start(&self, pass: u32, job: u32)
        ensures { told pass job };
}

/// The gate that does nothing.
#[derive(Drop)]
pub struct OpenGate;

impl Gate for OpenGate {
    fn start(&self, _pass: u32, _job: u32) {}
}
