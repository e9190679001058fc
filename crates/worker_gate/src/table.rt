//! Results at their places.
ghost use Rattle.std.specs.Prelude.{◌≡◌, ℕ, ◌+◌, ◌<◌, ◌≤◌, ◌^◌, length, IfOk, OnOk, slice_set, Some};
ghost use Rattle.std.specs.List.{AllZip, Contains};
ghost use Rattle.worker_gate.specs.Results.{AllGave, Right, Written, places};

use crate::job::Job;
use crate::task::{Answer, Batch};
use std::alloc::{AllocError, Global};

/// As many empty places.
pub fn empty_table<D: Drop>(alloc: Global, count: usize) -> Result<Vec<Option<D>>, AllocError>
    ensures len { IfOk result (λ t. length t.items ≡ count) }
    ensures empty { IfOk result (λ t. (p : ℕ) → Written t.items p → ⊥) }
{
    let mut table = Vec::new(alloc);
    for _ in 0..count {
        table.push(None)?;
    }
    Ok(table)
}

/// Writes each result at its position.
pub fn write_all<J: Job, K: Batch<J>>(table: &mut [Option<J::Done>], answers: Vec<Answer<J::Done>>)
    requires len { (length table.old ≡ length K.jobs) × (length K.jobs < 2 ^ 32) }
    requires gave { AllGave K.jobs J.gives K.told answers.items }
    requires right { Right K.jobs J.gives K.told table.old }
    ensures right { Right K.jobs J.gives K.told table.new }
    ensures written { (p : ℕ) → Contains (places answers.items) p → Written table.new p }
    ensures kept { (p : ℕ) → Written table.old p → Written table.new p }
{
    for answer in answers {
        let Answer { at, done } = answer;
        put_at(table, at as usize, done);
    }
}

fn put_at<D: Drop>(table: &mut [Option<D>], at: usize, done: D)
    requires { at < length table.old }
    ensures { table.new ≡ slice_set table.old at (Some done) }
{
    table[at] = Some(done);
}

/// The results, once each place is written.
pub fn in_order<J: Job, K: Batch<J>>(
    alloc: Global,
    table: Vec<Option<J::Done>>,
) -> Result<Vec<J::Done>, AllocError>
    requires len { length table.items ≡ length K.jobs }
    requires right { Right K.jobs J.gives K.told table.items }
    requires full { (p : ℕ) → p < length K.jobs → Written table.items p }
    ensures results { IfOk result (λ all. AllZip J.gives K.jobs all.items) }
    ensures told { OnOk result ((p : ℕ) → p < length K.jobs → K.told p) }
{
    let mut all = Vec::new(alloc);
    for cell in table {
        match cell {
            Some(done) => all.push(done)?,
            None => unreachable!(),
        }
    }
    Ok(all)
}
