//! The jobs of a batch, run by workers that steal from each other.
ghost use Rattle.std.specs.Prelude.{◌≡◌, ℕ, ◌+◌, ◌-◌, ◌^◌, ◌<◌, ◌≤◌, [], map, length, slice_index_or, vec_len, IfOk, OnOk};
ghost use Rattle.std.specs.List.{All, AllZip, Contains};
ghost use Rattle.crossbeam_deque.specs.Handles.{stealer_deque, worker_deque};
ghost use Rattle.worker_gate.specs.Results.{AllGave, Right, Written};
ghost use Rattle.worker_gate.specs.Rows.{tag, parts, put_of, Dealt};

use crate::deal::deal;
use crate::ends::OwnDeque;
use crate::job::{Gate, Job};
use crate::seat::{Seat, work_all};
use crate::seats::{rows_of, seats_of, take_all_back, take_apart};
use crate::table::{empty_table, in_order, write_all};
use crate::task::Batch;
use std::alloc::{AllocError, Global};
use std::marker::Brand;
use std::thread::Threads;

/// A seat for each worker, with the jobs in the deques.
fn ready<J: Job, K: Batch<J>>(
    alloc: Global,
    jobs: Vec<J>,
    workers: u32,
) -> Result<Vec<Seat<J, K>>, AllocError>
    requires jobs { (K.jobs ≡ jobs.items) × (vec_len jobs < 2 ^ 32) }
    requires workers { (0 < workers) × (workers ≤ 64) }
    ensures len { IfOk result (λ v. length v.items ≡ workers) }
    ensures dealt { IfOk result (λ v. Dealt (length K.jobs) (map (λ s. put_of s.own.deque) v.items)) }
    ensures part { IfOk result (λ v. All (λ s. parts s.own.deque ≡ 1024 - workers) v.items) }
    ensures rows { IfOk result (λ v. All (λ s. map (λ r. stealer_deque r.stealer) s.row.items ≡ map (λ s. worker_deque s.own.deque) v.items) v.items) }
    ensures gave { IfOk result (λ v. All (λ s. AllGave K.jobs J.gives K.told s.own.answers.items) v.items) }
    ensures row_gave { IfOk result (λ v. All (λ s. All (λ r. AllGave K.jobs J.gives K.told r.answers.items) s.row.items) v.items) }
{
    let mut owns = deal::<J, K>(alloc, jobs, workers)?;
    let rows = rows_of(alloc, owns.as_mut_slice())?;
    let seats = seats_of(alloc, owns, rows)?;
    Ok(seats)
}

/// The deques, with each pass back.
fn returned<J: Job, K: Batch<J>>(
    alloc: Global,
    seats: Vec<Seat<J, K>>,
) -> Result<Vec<OwnDeque<J, K>>, AllocError>
    requires few { length seats.items ≤ 64 }
    requires part { All (λ s. parts s.own.deque ≡ 1024 - length seats.items) seats.items }
    requires rows { All (λ s. map (λ r. stealer_deque r.stealer) s.row.items ≡ map (λ s. worker_deque s.own.deque) seats.items) seats.items }
    requires gave { All (λ s. AllGave K.jobs J.gives K.told s.own.answers.items) seats.items }
    requires row_gave { All (λ s. All (λ r. AllGave K.jobs J.gives K.told r.answers.items) s.row.items) seats.items }
    ensures tags { IfOk result (λ v. map (λ o. tag o.deque) v.items ≡ map (λ s. tag s.own.deque) seats.items) }
    ensures whole { IfOk result (λ v. All (λ o. parts o.deque ≡ 1024) v.items) }
    ensures gave { IfOk result (λ v. All (λ o. AllGave K.jobs J.gives K.told o.answers.items) v.items) }
{
    let (mut owns, rows) = take_apart(alloc, seats)?;
    take_all_back(owns.as_mut_slice(), rows)?;
    Ok(owns)
}

/// The results at their places. What a worker left for want of memory is run here.
fn written<J: Job, K: Batch<J>, G: Gate>(
    alloc: Global,
    owns: Vec<OwnDeque<J, K>>,
    count: usize,
    gate: &G,
    pass: u32,
) -> Result<Vec<Option<J::Done>>, AllocError>
    requires told { (p : ℕ) → G.told pass p → K.told p }
    requires count { (count ≡ length K.jobs) × (count < 2 ^ 32) }
    requires whole { All (λ o. parts o.deque ≡ 1024) owns.items }
    requires gave { All (λ o. AllGave K.jobs J.gives K.told o.answers.items) owns.items }
    requires dealt { Dealt (length K.jobs) (map (λ o. put_of o.deque) owns.items) }
    ensures len { IfOk result (λ t. length t.items ≡ length K.jobs) }
    ensures right { IfOk result (λ t. Right K.jobs J.gives K.told t.items) }
    ensures full { IfOk result (λ t. (p : ℕ) → p < length K.jobs → Written t.items p) }
{
    let mut table = empty_table(alloc, count)?;
    fill_table::<J, K, G>(owns, table.as_mut_slice(), gate, pass)?;
    Ok(table)
}

/// Runs what is left in each deque, and writes all results.
fn fill_table<J: Job, K: Batch<J>, G: Gate>(
    owns: Vec<OwnDeque<J, K>>,
    table: &mut [Option<J::Done>],
    gate: &G,
    pass: u32,
) -> Result<(), AllocError>
    requires told { (p : ℕ) → G.told pass p → K.told p }
    requires len { (length table.old ≡ length K.jobs) × (length K.jobs < 2 ^ 32) }
    requires whole { All (λ o. parts o.deque ≡ 1024) owns.items }
    requires gave { All (λ o. AllGave K.jobs J.gives K.told o.answers.items) owns.items }
    requires right { Right K.jobs J.gives K.told table.old }
    ensures right { OnOk result (Right K.jobs J.gives K.told table.new) }
    ensures full { OnOk result ((k p : ℕ) → k < length owns.items → Contains (slice_index_or (map (λ o. put_of o.deque) owns.items) k []) p → Written table.new p) }
{
    for own in owns {
        finish_into(own, table, gate, pass)?;
    }
    Ok(())
}

/// Runs what is left in a deque, and writes its results.
fn finish_into<J: Job, K: Batch<J>, G: Gate>(
    mut own: OwnDeque<J, K>,
    table: &mut [Option<J::Done>],
    gate: &G,
    pass: u32,
) -> Result<(), AllocError>
    requires told { (p : ℕ) → G.told pass p → K.told p }
    requires len { (length table.old ≡ length K.jobs) × (length K.jobs < 2 ^ 32) }
    requires whole { parts own.deque ≡ 1024 }
    requires gave { AllGave K.jobs J.gives K.told own.answers.items }
    requires right { Right K.jobs J.gives K.told table.old }
    ensures right { OnOk result (Right K.jobs J.gives K.told table.new) }
    ensures written { OnOk result ((p : ℕ) → Contains (put_of own.deque) p → Written table.new p) }
    ensures kept { OnOk result ((p : ℕ) → Written table.old p → Written table.new p) }
{
    own.finish(gate, pass)?;
    let OwnDeque { deque: _, answers } = own;
    write_all::<J, K>(table, answers);
    Ok(())
}

/// The results of a batch, in whose list the positions count.
fn gather_batch<R: Threads + Sync, J: Job, G: Gate, K: Batch<J> + Send + Sync>(
    rt: &R,
    alloc: Global,
    jobs: Vec<J>,
    workers: u32,
    pass: u32,
    gate: &G,
) -> Result<Vec<J::Done>, AllocError>
    requires told { (p : ℕ) → G.told pass p → K.told p }
    requires jobs { (K.jobs ≡ jobs.items) × (vec_len jobs < 2 ^ 32) }
    requires workers { (0 < workers) × (workers ≤ 64) }
    ensures results { IfOk result (λ v. AllZip J.gives K.jobs v.items) }
    ensures told { OnOk result ((p : ℕ) → p < length K.jobs → K.told p) }
{
    let count = jobs.len();
    let mut seats = ready::<J, K>(alloc, jobs, workers)?;
    work_all(rt, seats.as_mut_slice(), count, gate, pass);
    let owns = returned(alloc, seats)?;
    let table = written(alloc, owns, count, gate, pass)?;
    in_order::<J, K>(alloc, table)
}

/// The results of the jobs, in their order, by 1 to 64 workers, each on a thread of its own where one can be started; the caller does
/// the work of a thread that can't be. Each result is one that its own job may give (`results`). Where each job of the batch may give just
/// one, the answer is the list that one thread gives (`same`). The gate is told of each job by its position before it runs, under the
/// number `pass`. Fails for want of memory alone; a batch of 4,294,967,296 jobs (2^32) or more counts as want of memory.
pub fn gather<R: Threads + Sync, J: Job, G: Gate>(
    rt: &R,
    alloc: Global,
    jobs: Vec<J>,
    workers: u32,
    pass: u32,
    gate: &G,
) -> Result<Vec<J::Done>, AllocError>
    requires { (0 < workers) × (workers ≤ 64) }
    ensures results { IfOk result (λ v. AllZip J.gives jobs.items v.items) }
    ensures same { (g : J → J.Done) → All (λ j. (d : J.Done) → J.gives j d → d ≡ g j) jobs.items → IfOk result (λ v. v.items ≡ map g jobs.items) }
    ensures told { OnOk result ((p : ℕ) → p < vec_len jobs → G.told pass p) }
{
    if jobs.len() >= 1 << 32 {
        return Err(AllocError);
    }
    gather_batch::<R, J, G, Brand>(rt, alloc, jobs, workers, pass, gate)
}
