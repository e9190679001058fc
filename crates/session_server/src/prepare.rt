//! The requests of a line are made ready, side by side.

ghost use Rattle.std.specs.Prelude.{◌≡◌, ℕ, ◌<◌, ◌≤◌, Ok, map, vec_len, IfOk, IfErr, OnOk, false};
ghost use Rattle.std.specs.List.{AllByRecursion, AllZip};
ghost use Rattle.state_tree.specs.Again.{is_bad};
ghost use Rattle.state_tree.specs.Enters.{tree_of};
ghost use Rattle.session_server.specs.Links.{IsLinked};
ghost use Rattle.session_server.specs.Answers.{IsFit, AreFit, requests_in_readies};
ghost use Rattle.session_server.specs.Made.{IsKept, IsLookedUp, MakesFit};
ghost use Rattle.session_server.specs.Desks.{OthersComeTo, Went, Wore, GoesBy, StopsLooking};

use crate::answer::Halt;
use crate::desk::Desk;
use crate::job::{Prepare, look_up};
use crate::workers::Workers;
use repl_json::Request;
use state_tree::{Outcome, Ready, Work};
use std::alloc::{AllocError, Global};
use std::thread::Threads;
use turn_lock::Worn;
use worker_gate::{Gate, Job, gather};

/// Looks a request up and does its work. Where the look finds no memory the request is given up.
pub fn prepare<
    W: Work,
    D: Desk<Env = W::Env, State = W::State, Ready = Ready<W>, Outcome = Outcome<W>>,
>(
    alloc: Global,
    work: &W,
    desk: &D,
    place: &mut D::Place,
    request: Request,
) -> Result<Ready<W>, Worn>
    requires linked { IsLinked W.value (D.meaning desk.now) (D.finds desk.now) (D.fits desk.now) (D.enters desk.now) }
    requires own { D.is_own desk.now place.old }
    requires good { is_bad request.ask ≡ false }
    ensures own { D.is_own desk.now place.new }
    ensures others { OthersComeTo (D.meaning desk.now) place.old place.new }
    ensures went { OnOk result (Went (D.meaning desk.now) place.old place.new) }
    ensures wore { IfErr result (λ worn. Wore (D.meaning desk.now) worn.turns place.old place.new) }
    ensures request { IfOk result (λ ready. ready.request ≡ request) }
    ensures fit { IfOk result (IsFit (tree_of W.value ((D.meaning desk.now).view place.new))) }
    ensures looked { IfOk result (IsLookedUp (tree_of W.value ((D.meaning desk.now).view place.new))) }
{
    match look_up(alloc, work, desk, place, request) {
        Ok(job) => Ok(job.make()),
        Err(worn) => Err(worn),
    }
}

/// Looks requests up, in their order.
fn look_all<
    'a,
    W: Work,
    D: Desk<Env = W::Env, State = W::State, Ready = Ready<W>, Outcome = Outcome<W>>,
>(
    alloc: Global,
    work: &'a W,
    desk: &D,
    place: &mut D::Place,
    requests: Vec<Request>,
) -> Result<Vec<Prepare<'a, W>>, Halt>
    requires linked { IsLinked W.value (D.meaning desk.now) (D.finds desk.now) (D.fits desk.now) (D.enters desk.now) }
    requires own { D.is_own desk.now place.old }
    ensures own { D.is_own desk.now place.new }
    ensures others { OthersComeTo (D.meaning desk.now) place.old place.new }
    ensures goes { GoesBy (D.meaning desk.now) place.old place.new result }
    ensures halts { IfErr result StopsLooking }
    ensures requests { IfOk result (λ jobs. map (λ job. job.request) jobs.items ≡ requests.items) }
    ensures kept { IfOk result (λ jobs. AllByRecursion (λ job. IsKept (tree_of W.value ((D.meaning desk.now).view place.new)) job.request job.found) jobs.items) }
{
    let Ok(mut jobs) = Vec::with_capacity(alloc, requests.len()) else {
        return Err(Halt::Memory);
    };
    for request in requests {
        match look_up(alloc, work, desk, place, request) {
            Ok(job) => {
                let Ok(()) = jobs.push(job) else {
                    return Err(Halt::Memory);
                };
            }
            Err(worn) => return Err(Halt::Worn { turns: worn.turns }),
        }
    }
    Ok(jobs)
}

/// Runs at most one job, on the caller's thread. The gate is told of it all the same.
fn run_one<J: Job, G: Gate>(
    alloc: Global,
    pass: u32,
    jobs: Vec<J>,
    gate: &G,
) -> Result<Vec<J::Done>, AllocError>
    requires { vec_len jobs ≤ 1 }
    ensures results { IfOk result (λ v. AllZip J.gives jobs.items v.items) }
    ensures told { OnOk result ((p : ℕ) → p < vec_len jobs → G.told pass p) }
{
    let mut jobs = jobs;
    let mut done = Vec::with_capacity(alloc, 1)?;
    if let Some(job) = jobs.pop() {
        gate.start(pass, 0);
        done.push_reserved(job.run());
    }
    Ok(done)
}

/// How many workers so many jobs are shared out to: no more than there are jobs.
fn enough(workers: u32, jobs: usize) -> u32
    requires workers { (0 < workers) × (workers ≤ 64) }
    requires jobs { 0 < jobs }
    ensures { (0 < result) × (result ≤ 64) }
{
    if jobs < workers as usize {
        jobs as u32
    } else {
        workers
    }
}

/// Runs the jobs of a line.
fn run_all<R: Threads + Sync, W, J: Job, G: Gate>(
    workers: &Workers<'_, R, W, G>,
    pass: u32,
    jobs: Vec<J>,
) -> Result<Vec<J::Done>, AllocError>
    ensures results { IfOk result (λ v. AllZip J.gives jobs.items v.items) }
    ensures told { OnOk result ((p : ℕ) → p < vec_len jobs → G.told pass p) }
{
    if jobs.len() <= 1 {
        return run_one(workers.alloc, pass, jobs, workers.gate);
    }
    let count = enough(workers.count, jobs.len());
    gather(workers.rt, workers.alloc, jobs, count, pass, workers.gate)
}

/// All that was made, if nothing failed.
fn all_made<T: Drop>(alloc: Global, made: Vec<Result<T, AllocError>>) -> Result<Vec<T>, AllocError>
    ensures { IfOk result (λ v. made.items ≡ map Ok v.items) }
{
    let mut all = Vec::with_capacity(alloc, made.len())?;
    for one in made {
        all.push(one?)?;
    }
    Ok(all)
}

/// Does the work of requests that were looked up.
fn make_all<R: Threads + Sync, W: Work + Sync, G: Gate>(
    workers: &Workers<'_, R, W, G>,
    pass: u32,
    jobs: Vec<Prepare<'_, W>>,
) -> Result<Vec<Ready<W>>, AllocError>
where
    W::Env: Send,
    W::State: Send,
    ensures made { IfOk result (λ readies. AllZip (λ job ready. MakesFit W.value job.request job.found ready) jobs.entry.items readies.items) }
    ensures told { OnOk result ((p : ℕ) → p < vec_len jobs.entry → G.told pass p) }
{
    let made = run_all(workers, pass, jobs)?;
    all_made(workers.alloc, made)
}

/// Makes requests ready: each is looked up here, in their order, and then its work is done by one of the workers, while no turn is
/// held. What is ready comes in the order of the requests. Fails for want of memory, or where a look finds the lock worn.
pub fn prepare_all<
    R: Threads + Sync,
    W: Work + Sync,
    D: Desk<Env = W::Env, State = W::State, Ready = Ready<W>, Outcome = Outcome<W>>,
    G: Gate,
>(
    workers: &Workers<'_, R, W, G>,
    desk: &D,
    place: &mut D::Place,
    requests: Vec<Request>,
) -> Result<Vec<Ready<W>>, Halt>
where
    W::Env: Send,
    W::State: Send,
    requires linked { IsLinked W.value (D.meaning desk.now) (D.finds desk.now) (D.fits desk.now) (D.enters desk.now) }
    requires own { D.is_own desk.now place.old }
    ensures own { D.is_own desk.now place.new }
    ensures others { OthersComeTo (D.meaning desk.now) place.old place.new }
    ensures goes { GoesBy (D.meaning desk.now) place.old place.new result }
    ensures halts { IfErr result StopsLooking }
    ensures requests { IfOk result (λ readies. requests_in_readies readies.items ≡ requests.items) }
    ensures fit { IfOk result (λ readies. AreFit (tree_of W.value ((D.meaning desk.now).view place.new)) readies.items) }
    // The gate was told of each request by its position, under the number of the pass.
    ensures told { OnOk result ((p : ℕ) → p < vec_len requests → G.told (D.meaning desk.now).pass p) }
{
    match look_all(workers.alloc, workers.work, desk, place, requests) {
        Ok(jobs) => {
            let Ok(readies) = make_all(workers, desk.number(), jobs) else {
                return Err(Halt::Memory);
            };
            Ok(readies)
        }
        Err(halt) => Err(halt),
    }
}
