//! The deques of all workers, before and after they work.
ghost use Rattle.std.specs.Prelude.{◌≡◌, ℕ, ◌+◌, ◌-◌, ◌^◌, ◌<◌, ◌≤◌, [], ◌∷◌, ◌++◌, map, length, IfOk, OnOk};
ghost use Rattle.std.specs.List.{All};
ghost use Rattle.crossbeam_deque.specs.Handles.{view, stealer_deque, worker_deque, worker_view};
ghost use Rattle.worker_gate.specs.Results.{AllGave, places};
ghost use Rattle.worker_gate.specs.Rows.{tag, parts};

use crate::ends::{OwnDeque, StealPass};
use crate::job::{Gate, Job};
use crate::task::Batch;
use std::alloc::{AllocError, Global};

/// A pass of each deque, for one worker.
pub fn row_of<J: Job, K: Batch<J>>(
    alloc: Global,
    owns: &mut [OwnDeque<J, K>],
    left: u32,
) -> Result<Vec<StealPass<J, K>>, AllocError>
    requires left { 1 < left }
    requires parts { All (λ o. parts o.deque ≡ left) owns.old }
    requires gave { All (λ o. AllGave K.jobs J.gives K.told o.answers.items) owns.old }
    ensures tags { OnOk result (map (λ o. tag o.deque) owns.new ≡ map (λ o. tag o.deque) owns.old) }
    ensures parts { OnOk result (All (λ o. parts o.deque ≡ left - 1) owns.new) }
    ensures gave { OnOk result (All (λ o. AllGave K.jobs J.gives K.told o.answers.items) owns.new) }
    ensures row { IfOk result (λ r. map (λ r. stealer_deque r.stealer) r.items ≡ map (λ o. worker_deque o.deque) owns.old) }
    ensures row_gave { IfOk result (λ r. All (λ r. AllGave K.jobs J.gives K.told r.answers.items) r.items) }
{
    let mut row = Vec::new(alloc);
    for own in owns.iter_mut() {
        let steal_pass = own.steal_pass(alloc)?;
        row.push(steal_pass)?;
    }
    Ok(row)
}

/// Takes the passes of one worker back.
pub fn take_back<J: Job, K: Batch<J>>(
    owns: &mut [OwnDeque<J, K>],
    row: Vec<StealPass<J, K>>,
    have: u32,
) -> Result<(), AllocError>
    requires have { (0 < have) × (have < 2000) }
    requires row { map (λ r. stealer_deque r.stealer) row.items ≡ map (λ o. worker_deque o.deque) owns.old }
    requires parts { All (λ o. parts o.deque ≡ have) owns.old }
    requires gave { All (λ o. AllGave K.jobs J.gives K.told o.answers.items) owns.old }
    requires row_gave { All (λ r. AllGave K.jobs J.gives K.told r.answers.items) row.items }
    ensures tags { OnOk result (map (λ o. tag o.deque) owns.new ≡ map (λ o. tag o.deque) owns.old) }
    ensures parts { OnOk result (All (λ o. parts o.deque ≡ have + 1) owns.new) }
    ensures gave { OnOk result (All (λ o. AllGave K.jobs J.gives K.told o.answers.items) owns.new) }
{
    let mut at = 0;
    for steal_pass in row {
        owns[at].absorb(steal_pass)?;
        at += 1;
    }
    Ok(())
}
