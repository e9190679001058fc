//! The seats of all workers, made of their deques and taken apart again.
ghost use Rattle.std.specs.Prelude.{◌≡◌, ℕ, ◌+◌, ◌-◌, ◌<◌, ◌≤◌, [], map, length, IfOk, OnOk};
ghost use Rattle.std.specs.List.{All};
ghost use Rattle.crossbeam_deque.specs.Handles.{stealer_deque, worker_deque};
ghost use Rattle.worker_gate.specs.Results.{AllGave};
ghost use Rattle.worker_gate.specs.Rows.{tag, parts};

use crate::ends::{OwnDeque, StealPass};
use crate::job::Job;
use crate::rows::{row_of, take_back};
use crate::seat::Seat;
use crate::task::Batch;
use std::alloc::{AllocError, Global};

/// A row of passes for each worker.
pub fn rows_of<J: Job, K: Batch<J>>(
    alloc: Global,
    owns: &mut [OwnDeque<J, K>],
) -> Result<Vec<Vec<StealPass<J, K>>>, AllocError>
    requires few { length owns.old ≤ 64 }
    requires whole { All (λ o. parts o.deque ≡ 1024) owns.old }
    requires gave { All (λ o. AllGave K.jobs J.gives K.told o.answers.items) owns.old }
    ensures tags { OnOk result (map (λ o. tag o.deque) owns.new ≡ map (λ o. tag o.deque) owns.old) }
    ensures parts { OnOk result (All (λ o. parts o.deque ≡ 1024 - length owns.old) owns.new) }
    ensures gave { OnOk result (All (λ o. AllGave K.jobs J.gives K.told o.answers.items) owns.new) }
    ensures len { IfOk result (λ r. length r.items ≡ length owns.old) }
    ensures rows { IfOk result (λ r. All (λ w. map (λ r. stealer_deque r.stealer) w.items ≡ map (λ o. worker_deque o.deque) owns.old) r.items) }
    ensures row_gave { IfOk result (λ r. All (λ w. All (λ r. AllGave K.jobs J.gives K.told r.answers.items) w.items) r.items) }
{
    let mut rows = Vec::new(alloc);
    let count = owns.len() as u32;
    for done in 0..count {
        let row = row_of(alloc, owns, 1024 - done)?;
        rows.push(row)?;
    }
    Ok(rows)
}

/// Takes the passes of all workers back.
pub fn take_all_back<J: Job, K: Batch<J>>(
    owns: &mut [OwnDeque<J, K>],
    rows: Vec<Vec<StealPass<J, K>>>,
) -> Result<(), AllocError>
    requires few { length owns.old ≤ 64 }
    requires len { length rows.items ≡ length owns.old }
    requires part { All (λ o. parts o.deque ≡ 1024 - length owns.old) owns.old }
    requires gave { All (λ o. AllGave K.jobs J.gives K.told o.answers.items) owns.old }
    requires rows { All (λ w. map (λ r. stealer_deque r.stealer) w.items ≡ map (λ o. worker_deque o.deque) owns.old) rows.items }
    requires row_gave { All (λ w. All (λ r. AllGave K.jobs J.gives K.told r.answers.items) w.items) rows.items }
    ensures tags { OnOk result (map (λ o. tag o.deque) owns.new ≡ map (λ o. tag o.deque) owns.old) }
    ensures whole { OnOk result (All (λ o. parts o.deque ≡ 1024) owns.new) }
    ensures gave { OnOk result (All (λ o. AllGave K.jobs J.gives K.told o.answers.items) owns.new) }
{
    let mut have = 1024 - owns.len() as u32;
    for row in rows {
        take_back(owns, row, have)?;
        have += 1;
    }
    Ok(())
}

/// A seat for each worker.
pub fn seats_of<J: Job, K: Batch<J>>(
    alloc: Global,
    owns: Vec<OwnDeque<J, K>>,
    rows: Vec<Vec<StealPass<J, K>>>,
) -> Result<Vec<Seat<J, K>>, AllocError>
    requires { length rows.items ≡ length owns.items }
    ensures owns { IfOk result (λ v. map (λ s. s.own) v.items ≡ owns.items) }
    ensures rows { IfOk result (λ v. map (λ s. s.row) v.items ≡ rows.items) }
{
    let mut seats = Vec::new(alloc);
    let mut rest = rows.into_iter();
    for own in owns {
        match rest.next() {
            Some(row) => seats.push(Seat { own, row })?,
            None => unreachable!(),
        }
    }
    Ok(seats)
}

/// Takes the seats apart, into the deques and the rows of all workers.
pub fn take_apart<J: Job, K: Batch<J>>(
    alloc: Global,
    seats: Vec<Seat<J, K>>,
) -> Result<(Vec<OwnDeque<J, K>>, Vec<Vec<StealPass<J, K>>>), AllocError>
    ensures owns { IfOk result (λ v. v.0.items ≡ map (λ s. s.own) seats.items) }
    ensures rows { IfOk result (λ v. v.1.items ≡ map (λ s. s.row) seats.items) }
{
    let mut owns = Vec::new(alloc);
    let mut rows = Vec::new(alloc);
    for seat in seats {
        let Seat { own, row } = seat;
        owns.push(own)?;
        rows.push(row)?;
    }
    Ok((owns, rows))
}
