//! The generator of the demo: a session text made of two numbers, a seed and a number of rounds.
//! Each round states a small goal, moves to its end, tries two closing moves, prints the proof and deletes the goal's first state.
#![tactic(auto)]

ghost use Rattle.std.specs.Prelude.{◌≡◌, IfOk};
ghost use Rattle.session_maker.specs.Session.{session};

mod examples;
mod generator;
mod lines;
#[cfg(test)]
mod tests;

use generator::{arrow_count, next_number};
use ld_terms::{Bytes, List};
use lines::push_round;
use std::alloc::{AllocError, Global};

/// The session text of `rounds` rounds, each drawn from the number after that of the round before; the seed stands before the first.
/// Its lines are requests that end with 0x0A, and its state ids are those that a new tree gives them. No round gives no text.
/// Fails for want of memory alone.
pub fn make_session(alloc: Global, seed: u64, rounds: u32) -> Result<Bytes, AllocError>
    ensures { IfOk result (λ text. text ≡ session seed rounds) }
{
    let mut text = Vec::new(alloc);
    let mut drawn = seed;
    let mut start = 0;
    for _ in 0..rounds {
        drawn = next_number(drawn);
        let arrows = arrow_count(drawn);
        push_round(&mut text, start, drawn)?;
        start += arrows + 4;
    }
    Ok(List::of(text))
}
