ghost use Rattle.std.specs.Prelude.{◌≡◌, ◌<◌, ◌≤◌, ◌+◌, ◌⊎◌, ℕ, ◌++◌, [], ◌∷◌, MatchBool, IfOk, All, Contains};
ghost use Rattle.turn_lock.specs.Meanings.{IsPassOf};

use super::*;
use std::alloc::{AllocError, Global};
use std::sync::Wait;
use std::test::Fail;
use std::thread;
use std::thread::{Threads, join};

// The step with this number of a pass.
#[derive(Clone, Copy)]
struct Step {
    pass: u32,
    number: u32,
}

// A list of steps, with room for so many.
#[derive(Drop)]
struct Story {
    steps: Vec<Step>,
    room: usize,
}

impl Storied for Story {
    type Entry = Step;

    type Ground = usize;

    ghost entries = { λ s. s.steps.items };

    ghost pass_of = { λ e. e.pass };

    ghost ground_of = { λ s. s.room };

    fn length(&self) -> u64 {
        self.steps.len() as u64
    }
}

impl Story {
    fn new(alloc: Global, room: usize) -> Result<Story, AllocError>
        ensures { IfOk result (λ s. s.steps.items ≡ []) }
    {
        Ok(Story {
            steps: Vec::with_capacity(alloc, room)?,
            room,
        })
    }

    // Adds a step of a pass where there is room, and says whether it did.
    fn add(&mut self, pass: u32, number: u32) -> bool
        ensures room { self.new.room ≡ self.old.room }
        ensures steps { MatchBool result (self.new.steps.items ≡ self.old.steps.items ++ record { pass = pass; number = number } ∷ []) (self.new.steps.items ≡ self.old.steps.items) }
    {
        if self.steps.len() < self.steps.capacity() {
            self.steps.push_reserved(Step { pass, number });
            return true;
        }
        false
    }

    // Whether there is a step of another pass.
    fn has_others(&self, pass: u32) -> bool {
        self.steps.iter().any(|step| step.pass != pass)
    }
}

// One turn, with one step.
fn make_step<W: Threads + Wait + Sync>(
    rt: &W,
    shared: &Shared<Story>,
    pass: &mut Pass<Story>,
    number: u32,
) -> Result<bool, Worn>
    requires { IsPassOf shared.now pass.old }
    ensures { pass.new ≡ record pass.old { seen = pass.new.seen; found = pass.new.found } }
{
    let by = pass.number();
    shared.turn(rt, pass, move |story: &mut Story| story.add(by, number))
}

#[test]
fn a_note_tells_of_a_turn(rt: HostRuntime) -> Result<(), Fail> {
    let (shared, mut zero) = Shared::open(rt.alloc(), Story::new(rt.alloc(), 2)?)?;
    let mut one = shared.split(&mut zero, 1);
    let first = make_step(&rt, &shared, &mut zero, 0);
    let note = shared.tell(&mut zero);
    shared.learn(&mut one, note);
    let second = make_step(&rt, &shared, &mut one, 0);
    assert!(rt; first == Ok(true) && second == Ok(true) && one.number() == 1);
    shared.join(&mut zero, one);
    let (story, zero) = shared.close(zero);
    assert_eq!(rt; zero.number(), 0);
    assert_eq!(rt; story.steps.len(), 2);
    assert!(rt; story.steps[0].pass == 0 && story.steps[1].pass == 1);
    Ok(())
}

// Takes turns without a step until another pass has made one, and says whether one did. It gives up after ten million
// turns.
fn await_other<W: Threads + Wait + Sync>(
    rt: &W,
    shared: &Shared<Story>,
    pass: &mut Pass<Story>,
) -> bool
    requires { IsPassOf shared.now pass.old }
    ensures { pass.new ≡ record pass.old { seen = pass.new.seen; found = pass.new.found } }
{
    let by = pass.number();
    for _ in 0..10_000_000 {
        let found = shared.turn(rt, pass, move |story: &mut Story| story.has_others(by));
        if found == Ok(true) {
            return true;
        }
        thread::yield_now();
    }
    false
}

// Makes a step, waits for the first one of another pass, and makes 999 more. It says whether the other one came.
fn make_steps<W: Threads + Wait + Sync>(
    rt: &W,
    shared: &Shared<Story>,
    mut pass: Pass<Story>,
) -> (Pass<Story>, bool)
    requires { IsPassOf shared.now pass }
    ensures { result.0 ≡ record pass { seen = result.0.seen; found = result.0.found } }
{
    let _ = make_step(rt, shared, &mut pass, 0);
    let met = await_other(rt, shared, &mut pass);
    for number in 1..1000 {
        let _ = make_step(rt, shared, &mut pass, number);
    }
    (pass, met)
}

// Whether each pass's steps stand in the order in which it made them.
fn in_order(steps: &[Step]) -> bool {
    let mut next = [0u32; 2];
    for step in steps {
        let Some(number) = next.get_mut(step.pass as usize) else {
            return false;
        };
        if *number != step.number {
            return false;
        }
        *number = number.wrapping_add(1);
    }
    true
}

/// Each thread waits for the other's first step, so neither is through before the other has begun.
#[test]
fn two_threads_take_turns(rt: HostRuntime) -> Result<(), Fail> {
    let (shared, mut zero) = Shared::open(rt.alloc(), Story::new(rt.alloc(), 2000)?)?;
    let one = shared.split(&mut zero, 1);
    let lock = &shared;
    let ((mut zero, met_one), (one, met_zero)) = join(
        &rt,
        move || make_steps(&rt, lock, zero),
        move || make_steps(&rt, lock, one),
    );
    shared.join(&mut zero, one);
    let (story, _zero) = shared.close(zero);
    assert!(rt; met_one && met_zero);
    assert_eq!(rt; story.steps.len(), 2000);
    assert!(rt; in_order(story.steps.as_slice()));
    Ok(())
}

// A pass and pass 0 tell each other what they have seen, and pass 0 takes the pass back.
fn exchange_and_join(shared: &Shared<Story>, zero: &mut Pass<Story>, mut pass: Pass<Story>)
    requires own { IsPassOf shared.now zero.old × IsPassOf shared.now pass }
    requires root { zero.old.number ≡ 0 }
    ensures { zero.new ≡ record zero.old { seen = zero.new.seen; found = zero.new.found; took = zero.old.took ++ (pass.number ∷ pass.took); told = zero.old.told + 1 + (pass.told + 1); learnt = zero.old.learnt + 1 + (pass.learnt + 1) } }
{
    let note = shared.tell(&mut pass);
    shared.learn(zero, note);
    let note = shared.tell(zero);
    shared.learn(&mut pass, note);
    shared.join(zero, pass);
}

// Splits off all passes from this number on. Then each makes a step, and pass 0 takes it back.
fn come_and_go<W: Threads + Wait + Sync>(
    rt: &W,
    shared: &Shared<Story>,
    zero: &mut Pass<Story>,
    number: u32,
)
    requires own { IsPassOf shared.now zero.old }
    requires root { zero.old.number ≡ 0 }
    requires number { (0 < number) × (number ≤ 64) }
    requires new { All (λ n. n < number) zero.old.gave }
    ensures own { IsPassOf shared.now zero.new }
    ensures root { zero.new.number ≡ 0 }
    ensures back { (n : ℕ) → Contains zero.new.gave n → Contains zero.old.gave n ⊎ Contains zero.new.took n }
    ensures notes { zero.new.told + zero.old.learnt ≡ zero.new.learnt + zero.old.told }
{
    if number < 64 {
        let mut pass = shared.split(zero, number);
        come_and_go(rt, shared, zero, number + 1);
        let _ = make_step(rt, shared, &mut pass, 0);
        exchange_and_join(shared, zero, pass);
    }
}

#[test]
fn sixty_four_passes_come_and_go(rt: HostRuntime) -> Result<(), Fail> {
    let (shared, mut zero) = Shared::open(rt.alloc(), Story::new(rt.alloc(), 64)?)?;
    let _ = make_step(&rt, &shared, &mut zero, 0);
    come_and_go(&rt, &shared, &mut zero, 1);
    let (story, _zero) = shared.close(zero);
    assert_eq!(rt; story.steps.len(), 64);
    let others = story.steps.iter().skip(1);
    assert!(rt;
        others
            .zip((1..64).rev())
            .all(|(step, pass)| step.pass == pass)
    );
    Ok(())
}
