//! Links over a tree whose commands say always the same.

ghost use Rattle.std.specs.Prelude.{◌≡◌, ◌≤◌, IfOk};
ghost use Rattle.state_tree.specs.Toy.{said_body};
ghost use Rattle.state_tree.specs.ToyReplies.{said_is_reply};
ghost use Rattle.state_tree.specs.Value.{Says};

use crate::{Closed, Places, serve_links};
use ld_terms::List;
use pan_io::{MemoryDoors, MemoryLink, MemorySink, MemorySource};
use repl_json::{Ask, Body, Request, bad_body};
use session_server::End;
use state_tree::{Found, Tree, Work, Worked};
use std::alloc::{AllocError, Global};
use std::sync::Wait;
use std::test::Fail;
use std::thread::Threads;
use worker_gate::OpenGate;

struct Toy;

#[tactic(auto, unfolding(state_tree::specs::Toy::said_body))]
fn say(alloc: Global) -> Result<Body, AllocError>
    ensures { IfOk result (λ body. body ≡ said_body) }
{
    Ok(Body {
        first: List::from_slice(alloc, b"{\"seq\":")?,
        second: List::from_slice(alloc, b"}")?,
        third: List::of(Vec::new(alloc)),
        id_first: false,
    })
}

impl Work for Toy {
    type Env = u64;

    type State = u64;

    ghost value = { λ ask found. Says said_body };

    fn work(&self, alloc: Global, request: &Request, _found: &Found<u64, u64>) -> Worked<u64, u64> {
        let body = match &request.ask {
            Ask::Bad(bad) => bad_body(alloc, bad),
            _ => say(alloc),
        };
        match body {
            Ok(body) => Worked::Said(body),
            Err(_) => Worked::Memory,
        }
    }

    ghost replies = { λ ask found. said_is_reply };

    ghost env_clones = { λ x y h. h };

    ghost state_clones = { λ x y h. h };
}

/// A link whose input gives these bytes.
fn link(alloc: Global, input: &[u8]) -> Result<MemoryLink, AllocError> {
    let source = MemorySource::new(
        Vec::from_slice(alloc, input)?,
        Vec::new(alloc),
        Vec::new(alloc),
    );
    let sink = MemorySink::new(alloc, 3, 10_000, Vec::new(alloc));
    Ok(MemoryLink::new(source, sink))
}

/// Serves links of these inputs at so many places, over a tree of ten entries, where these calls of the doors fail.
fn serve<R: Threads + Wait + Sync>(
    rt: &R,
    alloc: Global,
    places: u32,
    inputs: &[&[u8]],
    failing: Vec<usize>,
) -> Result<Closed<Toy, MemorySource, MemorySink>, AllocError>
    requires { (1 ≤ places) × (places ≤ 64) }
{
    let mut links = Vec::new(alloc);
    for input in inputs {
        links.push(link(alloc, input)?)?;
    }
    let mut doors = MemoryDoors::new(alloc, links, failing);
    let tree = Tree::<Toy>::open(alloc, 7, 10)?;
    let places = Places::open(alloc, tree, places)?;
    Ok(serve_links(rt, alloc, &Toy, 1, places, &mut doors, &OpenGate))
}

#[test]
fn each_link_gets_its_replies(rt: HostRuntime) -> Result<(), Fail> {
    let alloc = rt.alloc();
    let inputs: [&[u8]; 2] = [b"stat\nstat\n", b"stat\n"];
    let closed = serve(&rt, alloc, 2, &inputs, Vec::new(alloc))?;
    assert_eq!(rt; closed.served.len(), 2);
    assert_eq!(rt; closed.journal.len(), 3);
    assert!(rt; !closed.failed);
    for served in &closed.served {
        assert_eq!(rt; served.end, End::Done);
    }
    let line = b"{\"envs\":1,\"live\":0,\"seq\":0,\"states\":0}\n".len();
    assert_eq!(rt; closed.served[0].output.bytes().len(), 2 * line);
    assert_eq!(rt; closed.served[1].output.bytes().len(), line);
    Ok(())
}

#[test]
fn doors_that_fail_leave_places_empty(rt: HostRuntime) -> Result<(), Fail> {
    let alloc = rt.alloc();
    let inputs: [&[u8]; 2] = [b"stat\n", b"stat\n"];
    // The second accept fails.
    let closed = serve(&rt, alloc, 3, &inputs, vec![in alloc; 1]?)?;
    assert_eq!(rt; closed.served.len(), 1);
    assert!(rt; closed.failed);
    assert_eq!(rt; closed.journal.len(), 1);
    Ok(())
}
