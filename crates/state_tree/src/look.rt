//! Looks for what a request names.

ghost use Rattle.std.specs.Prelude.{◌≡◌, IfOk, IsOk, None, slice_get, option_map, option_and_then};

use crate::slot::Slot;
use crate::work::Work;
use std::alloc::AllocError;

/// The environment of this id, where it was made.
pub fn find_env<W: Work>(envs: &[W::Env], named: Option<u64>) -> Result<Option<W::Env>, AllocError>
    ensures found { IfOk result (λ found. found ≡ option_and_then (slice_get envs.now) named) }
    ensures unnamed { named ≡ None → IsOk result }
{
    let Some(id) = named else {
        return Ok(None);
    };
    match envs.get(id as usize) {
        None => Ok(None),
        Some(env) => Ok(Some(env.clone()?)),
    }
}

/// The state of this id, where it was made, live or not.
pub fn find_state<W: Work>(
    slots: &[Slot<W::State>],
    named: Option<u64>,
) -> Result<Option<W::State>, AllocError>
    ensures found { IfOk result (λ found. found ≡ option_and_then (λ id. option_map (λ slot. slot.state) (slice_get slots.now id)) named) }
    ensures unnamed { named ≡ None → IsOk result }
{
    let Some(id) = named else {
        return Ok(None);
    };
    match slots.get(id as usize) {
        None => Ok(None),
        Some(slot) => Ok(Some(slot.state.clone()?)),
    }
}
