//! Jobs that a number of workers run, and their results in the jobs' order.
//!
//! Each worker has a deque of its own with a run of neighbouring jobs, the first worker the first run; the lengths of the runs differ by
//! at most one. All jobs are in the deques before a worker starts. A worker takes from its own deque, first in first out, until that is
//! empty, and then goes round the others with one steal at each, until a round gives no job. A job and its result go with the job's
//! position, and the results are put in order at the end.
//!
//! No job is lost and none runs twice: what was put into a deque is what the deque holds and what its passes took (`account`). The
//! workers' passes come back to each deque's owner, who then knows that every position was taken, and so that it has a result.
//!
//! A program that runs a job twice can't be written, so no must-fail edit does: `Job::run` takes the job itself, and a job can't be copied.
//! Nearest to it is the edit `two_jobs_at_one_position`.
#![tactic(auto)]

mod account;
mod deal;
mod ends;
mod job;
mod rows;
mod run;
mod seat;
mod seats;
mod table;
mod task;
#[cfg(test)]
mod tests;

pub use job::{Gate, Job, OpenGate};
pub use run::gather;
