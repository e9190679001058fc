//! What a run stands on.

use std::alloc::Global;

/// The threads that workers run on, the memory, and the gate that hears of each job.
#[derive(Drop)]
pub struct Host<'a, R, G> {
    pub rt: &'a R,
    pub alloc: Global,
    pub gate: &'a G,
}
