//! What one worker has: its own deque, and a pass of each deque.
ghost use Rattle.std.specs.Prelude.{◌≡◌, ℕ, ◌+◌, ◌-◌, ◌^◌, ◌<◌, ◌≤◌, [], ◌∷◌, ◌++◌, map, length, true, false, IfOk, OnOk};
ghost use Rattle.std.specs.List.{All};
ghost use Rattle.crossbeam_deque.specs.Handles.{view, stealer_deque, worker_deque, worker_view};
ghost use Rattle.worker_gate.specs.Results.{AllGave, places};
ghost use Rattle.worker_gate.specs.Rows.{tag, parts};

use crate::ends::{OwnDeque, StealPass};
use crate::job::{Gate, Job};
use crate::task::Batch;
use std::thread;
use std::thread::Threads;

/// What one worker has. The pass at each place of the row is of the deque of the worker at that place.
#[derive(Drop)]
pub struct Seat<J: Job, K: Batch<J>> {
    pub own: OwnDeque<J, K>,
    pub row: Vec<StealPass<J, K>>,
}

/// Goes round the other deques, with one steal at each. It answers whether a steal gave a job.
fn round<J: Job, K: Batch<J>, G: Gate>(
    row: &mut [StealPass<J, K>],
    me: usize,
    gate: &G,
    pass: u32,
) -> bool
    requires told { (p : ℕ) → G.told pass p → K.told p }
    requires few { (length row.old ≤ 64) × (me < 64) }
    requires gave { All (λ r. AllGave K.jobs J.gives K.told r.answers.items) row.old }
    ensures same { map (λ r. stealer_deque r.stealer) row.new ≡ map (λ r. stealer_deque r.stealer) row.old }
    ensures gave { All (λ r. AllGave K.jobs J.gives K.told r.answers.items) row.new }
{
    let mut got = false;
    let count = row.len();
    for step in 1..count {
        if row[(me + step) % count].steal(gate, pass) {
            got = true;
        }
    }
    got
}

impl<J: Job, K: Batch<J>> Seat<J, K> {
    /// Runs its own jobs, and then those that it steals, until a round gives none or there were `most` rounds.
    pub fn work<G: Gate>(&mut self, me: usize, most: usize, gate: &G, pass: u32)
        requires told { (p : ℕ) → G.told pass p → K.told p }
        requires few { (length self.old.row.items ≤ 64) × (me < 64) }
        requires part { 0 < (worker_view self.old.own.deque).parts }
        requires gave { AllGave K.jobs J.gives K.told self.old.own.answers.items × All (λ r. AllGave K.jobs J.gives K.told r.answers.items) self.old.row.items }
        ensures own { tag self.new.own.deque ≡ tag self.old.own.deque }
        ensures parts { (worker_view self.new.own.deque).parts ≡ (worker_view self.old.own.deque).parts }
        ensures row { map (λ r. stealer_deque r.stealer) self.new.row.items ≡ map (λ r. stealer_deque r.stealer) self.old.row.items }
        ensures gave { AllGave K.jobs J.gives K.told self.new.own.answers.items × All (λ r. AllGave K.jobs J.gives K.told r.answers.items) self.new.row.items }
    {
        self.own.take_all(most, gate, pass);
        steal_in(&mut self.row, me, most, gate, pass);
    }
}

/// Goes round, until a round gives no job or there were `most` rounds.
fn steal_all<J: Job, K: Batch<J>, G: Gate>(
    row: &mut [StealPass<J, K>],
    me: usize,
    most: usize,
    gate: &G,
    pass: u32,
)
    requires told { (p : ℕ) → G.told pass p → K.told p }
    requires few { (length row.old ≤ 64) × (me < 64) }
    requires gave { All (λ r. AllGave K.jobs J.gives K.told r.answers.items) row.old }
    ensures same { map (λ r. stealer_deque r.stealer) row.new ≡ map (λ r. stealer_deque r.stealer) row.old }
    ensures gave { All (λ r. AllGave K.jobs J.gives K.told r.answers.items) row.new }
{
    for _ in 0..most {
        if !round(row, me, gate, pass) {
            break;
        }
    }
}

/// The same over the worker's whole row.
fn steal_in<J: Job, K: Batch<J>, G: Gate>(
    row: &mut Vec<StealPass<J, K>>,
    me: usize,
    most: usize,
    gate: &G,
    pass: u32,
)
    requires told { (p : ℕ) → G.told pass p → K.told p }
    requires few { (length row.old.items ≤ 64) × (me < 64) }
    requires gave { All (λ r. AllGave K.jobs J.gives K.told r.answers.items) row.old.items }
    ensures same { map (λ r. stealer_deque r.stealer) row.new.items ≡ map (λ r. stealer_deque r.stealer) row.old.items }
    ensures gave { All (λ r. AllGave K.jobs J.gives K.told r.answers.items) row.new.items }
{
    steal_all(row.as_mut_slice(), me, most, gate, pass);
}

/// Each worker works, on a thread of its own where one can be started.
pub fn work_all<R: Threads + Sync, J: Job, G: Gate, K: Batch<J> + Send + Sync>(
    rt: &R,
    seats: &mut [Seat<J, K>],
    most: usize,
    gate: &G,
    pass: u32,
)
    requires told { (p : ℕ) → G.told pass p → K.told p }
    requires few { (0 < length seats.old) × (length seats.old ≤ 64) }
    requires part { All (λ s. 0 < parts s.own.deque) seats.old }
    requires rows { All (λ s. length s.row.items ≤ 64) seats.old }
    requires gave { All (λ s. AllGave K.jobs J.gives K.told s.own.answers.items) seats.old }
    requires row_gave { All (λ s. All (λ r. AllGave K.jobs J.gives K.told r.answers.items) s.row.items) seats.old }
    ensures tags { map (λ s. tag s.own.deque) seats.new ≡ map (λ s. tag s.own.deque) seats.old }
    ensures parts { map (λ s. parts s.own.deque) seats.new ≡ map (λ s. parts s.own.deque) seats.old }
    ensures rows { map (λ s. map (λ r. stealer_deque r.stealer) s.row.items) seats.new ≡ map (λ s. map (λ r. stealer_deque r.stealer) s.row.items) seats.old }
    ensures gave { All (λ s. AllGave K.jobs J.gives K.told s.own.answers.items) seats.new }
    ensures row_gave { All (λ s. All (λ r. AllGave K.jobs J.gives K.told r.answers.items) s.row.items) seats.new }
{
    let threads = seats.len();
    thread::for_each_mut(
        rt,
        seats,
        threads,
        &|me: usize, seat: &mut Seat<J, K>|
            requires { (length seat.now.row.items ≤ 64) × (me < 64) × (0 < parts seat.now.own.deque) × ((p : ℕ) → G.told pass p → K.told p) × AllGave K.jobs J.gives K.told seat.now.own.answers.items × All (λ r. AllGave K.jobs J.gives K.told r.answers.items) seat.now.row.items }
            ensures { (tag seat.exit.now.own.deque ≡ tag seat.entry.now.own.deque) × (parts seat.exit.now.own.deque ≡ parts seat.entry.now.own.deque) × (map (λ r. stealer_deque r.stealer) seat.exit.now.row.items ≡ map (λ r. stealer_deque r.stealer) seat.entry.now.row.items) × AllGave K.jobs J.gives K.told seat.exit.now.own.answers.items × All (λ r. AllGave K.jobs J.gives K.told r.answers.items) seat.exit.now.row.items }
        { seat.work(me, most, gate, pass) },
    );
}
