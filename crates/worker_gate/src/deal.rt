//! The jobs, in a deque for each worker.
ghost use Rattle.std.specs.Prelude.{◌≡◌, ℕ, ◌+◌, ◌-◌, ◌*◌, ◌/◌, ◌^◌, ◌<◌, ◌≤◌, [], map, drop, length, vec_len, IfOk, OnOk};
ghost use Rattle.std.specs.List.{All, range_with_len};
ghost use Rattle.worker_gate.specs.Rows.{parts, put_of, start, Dealt, Runs};

use crate::ends::OwnDeque;
use crate::job::Job;
use crate::task::{Batch, Task};
use std::alloc::{AllocError, Global};
use std::marker::PhantomData;
use std::vec::IntoIter;

/// Puts the next jobs into a deque.
fn fill<J: Job, K: Batch<J>>(
    own: &mut OwnDeque<J, K>,
    rest: &mut IntoIter<J>,
    first: u32,
    size: u32,
) -> Result<(), AllocError>
    requires fits { (first + size ≤ length K.jobs) × (length K.jobs < 2 ^ 32) }
    requires rest { rest.old.rest.items ≡ drop first K.jobs }
    requires fresh { (parts own.old.deque ≡ 1024) × (own.old.answers.items ≡ []) }
    requires empty { put_of own.old.deque ≡ [] }
    ensures rest { OnOk result (rest.new.rest.items ≡ drop (first + size) K.jobs) }
    ensures fresh { OnOk result ((parts own.new.deque ≡ 1024) × (own.new.answers.items ≡ [])) }
    ensures put { OnOk result (put_of own.new.deque ≡ range_with_len first size) }
{
    let mut at = first;
    for _ in 0..size {
        match rest.next() {
            Some(job) => own.put(Task {
                at,
                job,
                of: PhantomData,
            })?,
            None => unreachable!(),
        }
        at += 1;
    }
    Ok(())
}

/// The length of the run of a worker.
fn run_length(count: u32, workers: u32, worker: u32) -> u32
    requires { worker < workers }
    ensures next { start count workers worker + result ≡ start count workers (worker + 1) }
    ensures even { (count / workers ≤ result) × (result ≤ count / workers + 1) }
{
    let all = count / workers;
    if worker < count % workers {
        return all + 1;
    }
    all
}

/// A deque for each worker, with a run of neighbouring jobs.
pub fn deal<J: Job, K: Batch<J>>(
    alloc: Global,
    jobs: Vec<J>,
    workers: u32,
) -> Result<Vec<OwnDeque<J, K>>, AllocError>
    requires jobs { (K.jobs ≡ jobs.items) × (vec_len jobs < 2 ^ 32) }
    requires workers { (0 < workers) × (workers ≤ 64) }
    ensures len { IfOk result (λ v. length v.items ≡ workers) }
    ensures whole { IfOk result (λ v. All (λ o. parts o.deque ≡ 1024) v.items) }
    ensures none { IfOk result (λ v. All (λ o. o.answers.items ≡ []) v.items) }
    ensures dealt { IfOk result (λ v. Dealt (length K.jobs) (map (λ o. put_of o.deque) v.items)) }
    ensures runs { IfOk result (λ v. Runs (length K.jobs) workers (map (λ o. put_of o.deque) v.items)) }
{
    let count = jobs.len() as u32;
    let mut rest = jobs.into_iter();
    let mut owns = Vec::new(alloc);
    let mut at = 0;
    for worker in 0..workers {
        let size = run_length(count, workers, worker);
        let mut own = OwnDeque::new(alloc, size as usize)?;
        fill(&mut own, &mut rest, at, size)?;
        at += size;
        owns.push(own)?;
    }
    Ok(owns)
}
