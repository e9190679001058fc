//! Sessions over one board, by turns.

ghost use Rattle.std.specs.Prelude.{◌≡◌, IfOk};
ghost use Rattle.state_tree.specs.Toy.{toy_value, said_body, state_body};
ghost use Rattle.state_tree.specs.ToyReplies.{toy_replies};
ghost use Rattle.state_tree.specs.Value.{Gives, value_at};
ghost use Rattle.shared_board.specs.Boards.{IsBoardPassOf, IsNewPass};

use super::{say, source};
use crate::{End, serve_session};
use ld_terms::List;
use pan_io::MemorySink;
use repl_json::{Ask, Body, Request, bad_body};
use shared_board::{Board, BoardPass};
use state_tree::{Found, Tree, Work, Worked};
use std::alloc::{AllocError, Global};
use std::sync::Wait;
use std::test::Fail;
use std::thread::Threads;
use worker_gate::OpenGate;

/// `goal.start` makes the state of its fuel. There is no memory for other commands that make something.
struct Numbers;

#[tactic(auto, unfolding(state_tree::specs::Toy::state_body))]
fn say_state(alloc: Global) -> Result<Body, AllocError>
    ensures { IfOk result (λ body. body ≡ state_body) }
{
    Ok(Body {
        first: List::from_slice(alloc, b"{\"seq\":")?,
        second: List::from_slice(alloc, b",\"stateId\":")?,
        third: List::from_slice(alloc, b"}")?,
        id_first: false,
    })
}

fn try_work(alloc: Global, ask: &Ask) -> Result<Worked<u64, u64>, AllocError>
    ensures { IfOk result (λ worked. (found : Found _ _) → Gives (value_at toy_value ask.now found) worked) }
{
    match ask {
        Ask::Bad(bad) => Ok(Worked::Said(bad_body(alloc, bad)?)),
        Ask::Start { fuel, .. } => Ok(Worked::NewState(*fuel, say_state(alloc)?)),
        Ask::EnvAdd { .. } | Ask::Move { .. } => Ok(Worked::Memory),
        _ => Ok(Worked::Said(say(alloc)?)),
    }
}

impl Work for Numbers {
    type Env = u64;

    type State = u64;

    ghost value = { toy_value };

    fn work(&self, alloc: Global, request: &Request, _found: &Found<u64, u64>) -> Worked<u64, u64> {
        match try_work(alloc, &request.ask) {
            Ok(worked) => worked,
            Err(_) => Worked::Memory,
        }
    }

    ghost replies = { toy_replies };

    ghost env_clones = { λ x y h. h };

    ghost state_clones = { λ x y h. h };
}

/// A board with two passes, over a tree of five entries at most.
fn open_two(
    alloc: Global,
) -> Result<(Board<Numbers>, BoardPass<Numbers>, BoardPass<Numbers>), AllocError>
    ensures { IfOk result (λ r. IsNewPass toy_value r.0 0 r.1 × IsNewPass toy_value r.0 1 r.2) }
{
    let tree = Tree::open(alloc, 7, 5)?;
    let (board, mut passes) = Board::open(alloc, tree, 2)?;
    let one = passes.remove(1);
    let zero = passes.remove(0);
    Ok((board, zero, one))
}

/// How a session of this pass ends, where it writes just this output.
fn serve<R: Threads + Wait + Sync>(
    rt: &R,
    alloc: Global,
    board: &Board<Numbers>,
    pass: &mut BoardPass<Numbers>,
    input: &[u8],
    output: &[u8],
) -> Result<Option<End>, AllocError>
    requires own { IsBoardPassOf toy_value board.now pass.old }
    ensures own { IsBoardPassOf toy_value board.now pass.new }
{
    let mut source = source(alloc, input, 7, Vec::new(alloc))?;
    let mut sink = MemorySink::new(alloc, 100, 1000, Vec::new(alloc));
    let end = serve_session(
        rt,
        alloc,
        &Numbers,
        board,
        pass,
        1,
        &mut source,
        &mut sink,
        &OpenGate,
    );
    if sink.bytes() == output {
        return Ok(Some(end));
    }
    Ok(None)
}

#[test]
fn two_passes_share_a_tree(rt: HostRuntime) -> Result<(), Fail> {
    let alloc = rt.alloc();
    let (board, mut zero, mut one) = open_two(alloc)?;
    let made = serve(
        &rt,
        alloc,
        &board,
        &mut zero,
        b"goal.start {\"expr\":\"*\"}",
        b"{\"seq\":0,\"stateId\":0}\n",
    )?;
    assert_eq!(rt; made, Some(End::Done));
    let printed = serve(
        &rt,
        alloc,
        &board,
        &mut one,
        b"goal.print {\"after\":1,\"stateId\":0}\nstat {\"after\":9}",
        b"{\"seq\":1}\n{\"error\":\"ahead\",\"length\":2,\"seq\":2}\n",
    )?;
    assert_eq!(rt; printed, Some(End::Done));
    let deleted = serve(
        &rt,
        alloc,
        &board,
        &mut zero,
        b"goal.delete {\"stateId\":0}",
        b"{\"deleted\":0,\"seq\":3}\n",
    )?;
    assert_eq!(rt; deleted, Some(End::Done));
    let full = serve(
        &rt,
        alloc,
        &board,
        &mut one,
        b"goal.print {\"stateId\":0}\nstat",
        b"{\"error\":\"unknownState\",\"id\":0,\"seq\":4}\n",
    )?;
    assert_eq!(rt; full, Some(End::Full { entries: 5 }));
    Ok(())
}
