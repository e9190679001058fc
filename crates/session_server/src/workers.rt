//! The workers of a session.

ghost use Rattle.std.specs.Prelude.{◌<◌, ◌≤◌};

use std::alloc::Global;

/// How many workers a session has, the threads that they run on, the work that they do, and the gate that they tell of each job.
#[derive(Drop)]
pub struct Workers<'a, R, W, G> {
    pub rt: &'a R,
    pub alloc: Global,
    pub work: &'a W,
    pub count: u32,
    pub gate: &'a G,
    ghost few: { (0 < count) × (count ≤ 64) },
}
