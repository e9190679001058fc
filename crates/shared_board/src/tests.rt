//! Boards over trees of numbers, run.

ghost use Rattle.std.specs.Prelude.{◌≡◌, ◌≤◌, ◌+◌, false, IfOk, IfSome};
ghost use Rattle.state_tree.specs.Again.{is_bad};
ghost use Rattle.state_tree.specs.Toy.{toy_value, said_body, state_body};
ghost use Rattle.state_tree.specs.ToyReplies.{toy_replies};
ghost use Rattle.state_tree.specs.Value.{Gives, value_at};
ghost use Rattle.state_tree.specs.TreeModel.{Holds};
ghost use Rattle.shared_board.specs.Boards.{IsBoardPassOf, IsNewPass};
ghost use Rattle.shared_board.specs.Calls.{tree_seen};

use crate::{Board, BoardPass};
use ld_terms::List;
use repl_json::{Ask, Body, Line, Request, bad_body};
use state_tree::{Entry, Found, Outcome, Ready, Tree, Work, Worked, make_ready};
use std::alloc::{AllocError, Global};
use std::sync::Wait;
use std::test::Fail;
use std::thread::{Threads, join};

/// `goal.start` makes the state of its fuel, and `goal.move` adds its goal to its state.
struct Toy;

fn body_of(alloc: Global, first: &[u8], second: &[u8], third: &[u8]) -> Result<Body, AllocError>
    ensures { IfOk result (λ body. body ≡ record { first = first.now; second = second.now; third = third.now; id_first = false }) }
{
    Ok(Body {
        first: List::from_slice(alloc, first)?,
        second: List::from_slice(alloc, second)?,
        third: List::from_slice(alloc, third)?,
        id_first: false,
    })
}

#[tactic(auto, unfolding(state_tree::specs::Toy::said_body))]
fn say(alloc: Global) -> Result<Body, AllocError>
    ensures { IfOk result (λ body. body ≡ said_body) }
{
    body_of(alloc, b"{\"seq\":", b"}", b"")
}

#[tactic(auto, unfolding(state_tree::specs::Toy::state_body))]
fn say_state(alloc: Global) -> Result<Body, AllocError>
    ensures { IfOk result (λ body. body ≡ state_body) }
{
    body_of(alloc, b"{\"seq\":", b",\"stateId\":", b"}")
}

fn try_work(
    alloc: Global,
    ask: &Ask,
    found: &Found<u64, u64>,
) -> Result<Worked<u64, u64>, AllocError>
    ensures { IfOk result (λ worked. Gives (value_at toy_value ask.now found.now) worked) }
{
    match ask {
        Ask::Bad(bad) => Ok(Worked::Said(bad_body(alloc, bad)?)),
        Ask::Start { fuel, .. } => Ok(Worked::NewState(*fuel, say_state(alloc)?)),
        // No test makes an environment.
        Ask::EnvAdd { .. } => Ok(Worked::Memory),
        Ask::Move { goal, .. } => match found.one {
            Some(n) if n < 1_000_000 && *goal < 1_000_000 => {
                Ok(Worked::NewState(n + *goal, say_state(alloc)?))
            }
            _ => Ok(Worked::Said(say(alloc)?)),
        },
        _ => Ok(Worked::Said(say(alloc)?)),
    }
}

impl Work for Toy {
    type Env = u64;

    type State = u64;

    ghost value = { toy_value };

    fn work(&self, alloc: Global, request: &Request, found: &Found<u64, u64>) -> Worked<u64, u64> {
        match try_work(alloc, &request.ask, found) {
            Ok(worked) => worked,
            Err(_) => Worked::Memory,
        }
    }

    ghost replies = { toy_replies };

    ghost env_clones = { λ x y h. h };

    ghost state_clones = { λ x y h. h };
}

fn start(alloc: Global, fuel: u64) -> Ask
    ensures { is_bad result ≡ false }
{
    Ask::Start {
        env: 0,
        expr: List::of(Vec::new(alloc)),
        fuel,
    }
}

/// A board with two passes, over a tree with room for so many entries.
fn open_two(
    alloc: Global,
    entries: u32,
) -> Result<(Board<Toy>, BoardPass<Toy>, BoardPass<Toy>), AllocError>
    ensures { IfOk result (λ r. (r.0.passes ≡ 2) × IsNewPass toy_value r.0 0 r.1 × IsNewPass toy_value r.0 1 r.2) }
{
    let tree = Tree::open(alloc, 7, entries)?;
    let (board, mut passes) = Board::open(alloc, tree, 2)?;
    let one = passes.remove(1);
    let zero = passes.remove(0);
    Ok((board, zero, one))
}

/// Looks a request up, and does its work.
fn prepare<R: Threads + Wait + Sync>(
    rt: &R,
    alloc: Global,
    board: &Board<Toy>,
    pass: &mut BoardPass<Toy>,
    after: u64,
    ask: Ask,
) -> Option<Ready<Toy>>
    requires own { IsBoardPassOf toy_value board.now pass.old }
    ensures own { IsBoardPassOf toy_value board.now pass.new }
    ensures same { pass.new ≡ record pass.old { seen = pass.new.seen; found = pass.new.found } }
    ensures held { IfSome result (λ ready. (ready.request.ask ≡ ask) × Holds (tree_seen toy_value board.now.lock.the_ground pass.new.seen) ask ready.found) }
{
    let request = Request { after, ask };
    match board.look(rt, pass, &request) {
        Ok(found) => Some(make_ready(alloc, &Toy, request, found)),
        Err(_) => None,
    }
}

/// What entering a request shows: the number of the entry, with the id of what it made, or why there is none.
#[derive(Clone, Copy, PartialEq, Eq)]
enum Shown {
    Made { seq: u64, id: u64 },
    Said { seq: u64 },
    Ahead { length: u64, seq: u64 },
    Unknown { id: u64, seq: u64 },
    Again { id: u64 },
    Full { entries: u32 },
    Other,
}

fn show_line(line: &Line) -> Shown {
    match line {
        Line::Given {
            seq,
            id: Some(id),
            ..
        } => Shown::Made { seq: *seq, id: *id },
        Line::Given { seq, .. } | Line::Deleted { seq, .. } | Line::Stat { seq, .. } => {
            Shown::Said { seq: *seq }
        }
        Line::Ahead { length, seq } => Shown::Ahead {
            length: *length,
            seq: *seq,
        },
        Line::UnknownState { id, seq } => Shown::Unknown { id: *id, seq: *seq },
        _ => Shown::Other,
    }
}

fn show(outcome: &Outcome<Toy>) -> Shown {
    match outcome {
        Outcome::Entered(line) => show_line(line),
        Outcome::Again { id, .. } => Shown::Again { id: *id },
        Outcome::Full { entries } => Shown::Full { entries: *entries },
    }
}

/// Enters a request that was looked up.
fn enter_ready<R: Threads + Wait + Sync>(
    rt: &R,
    board: &Board<Toy>,
    pass: &mut BoardPass<Toy>,
    ready: Ready<Toy>,
) -> Option<Shown>
    requires own { IsBoardPassOf toy_value board.now pass.old }
    requires held { Holds (tree_seen toy_value board.now.lock.the_ground pass.old.seen) ready.request.ask ready.found }
    requires good { is_bad ready.request.ask ≡ false }
    ensures own { IsBoardPassOf toy_value board.now pass.new }
    ensures same { pass.new ≡ record pass.old { seen = pass.new.seen; found = pass.new.found } }
{
    let outcome = board.enter(rt, pass, ready).ok()?;
    Some(show(&outcome))
}

/// Looks a request up, does its work and enters it.
fn enter<R: Threads + Wait + Sync>(
    rt: &R,
    alloc: Global,
    board: &Board<Toy>,
    pass: &mut BoardPass<Toy>,
    after: u64,
    ask: Ask,
) -> Option<Shown>
    requires own { IsBoardPassOf toy_value board.now pass.old }
    requires good { is_bad ask ≡ false }
    ensures own { IsBoardPassOf toy_value board.now pass.new }
    ensures same { pass.new ≡ record pass.old { seen = pass.new.seen; found = pass.new.found } }
{
    let ready = prepare(rt, alloc, board, pass, after, ask)?;
    enter_ready(rt, board, pass, ready)
}

/// The number of the state that a look finds first.
fn state_at<R: Threads + Wait + Sync>(
    rt: &R,
    board: &Board<Toy>,
    pass: &mut BoardPass<Toy>,
    state: u64,
) -> Option<u64>
    requires own { IsBoardPassOf toy_value board.now pass.old }
    ensures own { IsBoardPassOf toy_value board.now pass.new }
    ensures same { pass.new ≡ record pass.old { seen = pass.new.seen; found = pass.new.found } }
{
    let request = Request {
        after: 0,
        ask: Ask::Print { state },
    };
    board.look(rt, pass, &request).ok()?.one
}

/// Closes a board with its two passes, which have learnt as many notes as they told.
fn close_two(
    alloc: Global,
    board: Board<Toy>,
    zero: BoardPass<Toy>,
    one: BoardPass<Toy>,
) -> Result<Vec<Entry>, AllocError>
    requires own { IsBoardPassOf toy_value board zero × IsBoardPassOf toy_value board one }
    requires numbers { (board.passes ≡ 2) × (zero.number ≡ 0) × (one.number ≡ 1) }
    requires notes { zero.told + one.told ≡ zero.learnt + one.learnt }
{
    let mut passes = Vec::with_capacity(alloc, 2)?;
    passes.push_reserved(one);
    passes.push_reserved(zero);
    let (tree, _last) = board.close(passes);
    Ok(tree.into_journal())
}

#[test]
fn a_pass_learns_of_a_state(rt: HostRuntime) -> Result<(), Fail> {
    let alloc = rt.alloc();
    let (board, mut zero, mut one) = open_two(alloc, 10)?;
    let made = enter(&rt, alloc, &board, &mut zero, 0, start(alloc, 3));
    assert!(rt; made == Some(Shown::Made { seq: 0, id: 0 }));
    let note = board.tell(&mut zero);
    board.learn(&mut one, note);
    let printed = enter(&rt, alloc, &board, &mut one, 1, Ask::Print { state: 0 });
    assert!(rt; printed == Some(Shown::Said { seq: 1 }));
    let ahead = enter(&rt, alloc, &board, &mut one, 9, Ask::Stat);
    assert!(rt; ahead == Some(Shown::Ahead { length: 2, seq: 2 }));
    let journal = close_two(alloc, board, zero, one)?;
    assert!(rt; journal.len() == 3 && journal[0].pass == 0 && journal[1].pass == 1);
    Ok(())
}

#[test]
fn what_was_missed_is_found_by_the_next_look(rt: HostRuntime) -> Result<(), Fail> {
    let alloc = rt.alloc();
    let (board, mut zero, mut one) = open_two(alloc, 2)?;
    let missed = prepare(&rt, alloc, &board, &mut one, 0, Ask::Print { state: 0 });
    let made = enter(&rt, alloc, &board, &mut zero, 0, start(alloc, 3));
    assert!(rt; made == Some(Shown::Made { seq: 0, id: 0 }));
    let Some(missed) = missed else {
        panic!(rt; "no look");
    };
    let again = enter_ready(&rt, &board, &mut one, missed);
    assert!(rt; again == Some(Shown::Again { id: 0 }));
    let printed = enter(&rt, alloc, &board, &mut one, 0, Ask::Print { state: 0 });
    assert!(rt; printed == Some(Shown::Said { seq: 1 }));
    let full = enter(&rt, alloc, &board, &mut one, 0, Ask::Stat);
    assert!(rt; full == Some(Shown::Full { entries: 2 }));
    let journal = close_two(alloc, board, zero, one)?;
    assert!(rt; journal.len() == 2 && journal[0].pass == 0 && journal[1].pass == 1);
    Ok(())
}

#[test]
fn a_cached_state_may_be_deleted(rt: HostRuntime) -> Result<(), Fail> {
    let alloc = rt.alloc();
    let (board, mut zero, mut one) = open_two(alloc, 10)?;
    assert!(rt; zero.number() == 0 && one.number() == 1);
    let made = enter(&rt, alloc, &board, &mut zero, 0, start(alloc, 3));
    assert!(rt; made == Some(Shown::Made { seq: 0, id: 0 }));
    assert!(rt; state_at(&rt, &board, &mut one, 0) == Some(3));
    let deleted = enter(&rt, alloc, &board, &mut zero, 0, Ask::Delete { state: 0 });
    assert!(rt; deleted == Some(Shown::Said { seq: 1 }));
    assert!(rt; state_at(&rt, &board, &mut one, 0) == Some(3));
    let printed = enter(&rt, alloc, &board, &mut one, 0, Ask::Print { state: 0 });
    assert!(rt; printed == Some(Shown::Unknown { id: 0, seq: 2 }));
    Ok(())
}

/// Makes so many states, state n of n units, and says whether each was made.
fn make_states<R: Threads + Wait + Sync>(
    rt: &R,
    alloc: Global,
    board: &Board<Toy>,
    pass: &mut BoardPass<Toy>,
    states: u64,
) -> bool
    requires own { IsBoardPassOf toy_value board.now pass.old }
    ensures own { IsBoardPassOf toy_value board.now pass.new }
{
    for id in 0..states {
        let made = enter(rt, alloc, board, pass, 0, start(alloc, id));
        if made != Some(Shown::Made { seq: id, id }) {
            return false;
        }
    }
    true
}

/// Looks up and prints each of so many states, and says whether each was the one of its number.
fn print_states<R: Threads + Wait + Sync>(
    rt: &R,
    alloc: Global,
    board: &Board<Toy>,
    pass: &mut BoardPass<Toy>,
    states: u64,
) -> bool
    requires own { IsBoardPassOf toy_value board.now pass.old }
    ensures own { IsBoardPassOf toy_value board.now pass.new }
{
    for state in 0..states {
        if state_at(rt, board, pass, state) != Some(state) {
            return false;
        }
        let printed = enter(rt, alloc, board, pass, 0, Ask::Print { state });
        if !matches!(printed, Some(Shown::Said { .. })) {
            return false;
        }
    }
    true
}

/// More states than the cache keeps.
#[test]
fn three_hundred_states_are_printed_twice(rt: HostRuntime) -> Result<(), Fail> {
    let alloc = rt.alloc();
    let (board, mut zero, _one) = open_two(alloc, 1000)?;
    assert!(rt; make_states(&rt, alloc, &board, &mut zero, 300));
    assert!(rt; print_states(&rt, alloc, &board, &mut zero, 300));
    assert!(rt; print_states(&rt, alloc, &board, &mut zero, 300));
    let deleted = enter(&rt, alloc, &board, &mut zero, 0, Ask::Delete { state: 299 });
    assert!(rt; deleted == Some(Shown::Said { seq: 900 }));
    let printed = enter(&rt, alloc, &board, &mut zero, 0, Ask::Print { state: 299 });
    assert!(rt; printed == Some(Shown::Unknown { id: 299, seq: 901 }));
    Ok(())
}

/// Counts the states a hundred times, and says whether each request was entered.
fn count_states<R: Threads + Wait + Sync>(
    rt: &R,
    alloc: Global,
    board: &Board<Toy>,
    mut pass: BoardPass<Toy>,
) -> (BoardPass<Toy>, bool)
    requires { IsBoardPassOf toy_value board.now pass }
    ensures own { IsBoardPassOf toy_value board.now result.0 }
    ensures same { result.0 ≡ record pass { seen = result.0.seen; found = result.0.found } }
{
    for _ in 0..100 {
        let counted = enter(rt, alloc, board, &mut pass, 0, Ask::Stat);
        if !matches!(counted, Some(Shown::Said { .. })) {
            return (pass, false);
        }
    }
    (pass, true)
}

#[test]
fn two_threads_enter(rt: HostRuntime) -> Result<(), Fail> {
    let alloc = rt.alloc();
    let (board, zero, one) = open_two(alloc, 200)?;
    let shared = &board;
    let handle = &rt;
    let ((zero, first), (one, second)) = join(
        &rt,
        move || count_states(handle, alloc, shared, zero),
        move || count_states(handle, alloc, shared, one),
    );
    assert!(rt; first && second);
    let journal = close_two(alloc, board, zero, one)?;
    assert_eq!(rt; journal.len(), 200);
    assert_eq!(rt; journal.iter().filter(|entry| entry.pass == 1).count(), 100);
    Ok(())
}
