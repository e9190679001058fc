//! Sessions whose commands say always the same, run.

ghost use Rattle.std.specs.Prelude.{◌≡◌, None, IfOk};
ghost use Rattle.std.proofs.Common.{rules};
ghost use Rattle.state_tree.specs.Toy.{said_body};
ghost use Rattle.state_tree.specs.ToyReplies.{said_is_reply};
ghost use Rattle.state_tree.specs.Value.{Says};

mod board;
mod tries;

use crate::{End, run_session};
use ld_terms::List;
use pan_io::{Failed, MemorySink, MemorySource, Sink, Source};
use repl_json::{Ask, Body, Request, bad_body};
use state_tree::{Found, Tree, Work, Worked};
use std::alloc::{AllocError, Global};
use std::cell::Cell;
use std::test::Fail;
use std::thread::Threads;
use worker_gate::OpenGate;

struct Toy;

#[tactic(auto, unfolding(state_tree::specs::Toy::said_body))]
fn say(alloc: Global) -> Result<Body, AllocError>
    ensures { IfOk result (λ body. body ≡ said_body) }
{
    Ok(Body {
        first: List::from_slice(alloc, b"{\"seq\":")?,
        second: List::from_slice(alloc, b"}")?,
        third: List::of(Vec::new(alloc)),
        id_first: false,
    })
}

impl Work for Toy {
    type Env = u64;

    type State = u64;

    ghost value = { λ ask found. Says said_body };

    fn work(&self, alloc: Global, request: &Request, _found: &Found<u64, u64>) -> Worked<u64, u64> {
        let body = match &request.ask {
            Ask::Bad(bad) => bad_body(alloc, bad),
            _ => say(alloc),
        };
        match body {
            Ok(body) => Worked::Said(body),
            Err(_) => Worked::Memory,
        }
    }

    ghost replies = { λ ask found. said_is_reply };

    ghost env_clones = { λ x y h. h };

    ghost state_clones = { λ x y h. h };
}

/// What a session left.
#[derive(Drop)]
struct Left {
    end: End,
    output: Vec<u8>,
    entries: u64,
}

/// A session over a tree of ten entries at most. The sink takes three bytes a call, and so many in all.
fn session<R: Threads + Sync>(
    rt: &R,
    alloc: Global,
    source: &mut MemorySource,
    room: usize,
) -> Result<Left, AllocError> {
    let mut tree = Tree::<Toy>::open(alloc, 7, 10)?;
    let mut sink = MemorySink::new(alloc, 3, room, Vec::new(alloc));
    let end = run_session(rt, alloc, &Toy, &mut tree, 1, source, &mut sink, &OpenGate);
    Ok(Left {
        end,
        output: Vec::from_slice(alloc, sink.bytes())?,
        entries: tree.length(),
    })
}

/// A source of these bytes that gives so many a call, and fails at these calls.
fn source(
    alloc: Global,
    bytes: &[u8],
    piece: usize,
    failing: Vec<usize>,
) -> Result<MemorySource, AllocError> {
    let bytes = Vec::from_slice(alloc, bytes)?;
    Ok(MemorySource::new(bytes, vec![in alloc; piece]?, failing))
}

#[test]
fn each_line_is_answered(rt: HostRuntime) -> Result<(), Fail> {
    let alloc = rt.alloc();
    let bytes =
        b"env.catalog {\"envId\":0}\r\n\n \t\nenv.catalog {\"envId\":1}\nnope {}\nstat {\"after\":9}\nstat";
    for piece in [1, 7, 1000] {
        let left = session(
            &rt,
            alloc,
            &mut source(alloc, bytes, piece, Vec::new(alloc))?,
            1000,
        )?;
        assert_eq!(rt; left.end, End::Done);
        assert_eq!(rt;
            left.output.as_slice(),
            b"{\"seq\":0}\n{\"error\":\"unknownEnv\",\"id\":1,\"seq\":1}\n{\"error\":\"command\",\"seq\":2}\n{\"error\":\"ahead\",\"length\":3,\"seq\":3}\n{\"envs\":1,\"live\":0,\"seq\":4,\"states\":0}\n".as_slice()
        );
        assert_eq!(rt; left.entries, 5);
    }
    Ok(())
}

#[test]
fn long_line_is_answered_by_its_length(rt: HostRuntime) -> Result<(), Fail> {
    let alloc = rt.alloc();
    let mut bytes = vec![in alloc; b' '; 65_537]?;
    bytes.extend_from_slice(b"\nstat\n")?;
    let left = session(
        &rt,
        alloc,
        &mut source(alloc, &bytes, 5000, Vec::new(alloc))?,
        1000,
    )?;
    assert_eq!(rt; left.end, End::Done);
    assert_eq!(rt;
        left.output.as_slice(),
        b"{\"error\":\"lineTooLong\",\"length\":65537,\"seq\":0}\n{\"envs\":1,\"live\":0,\"seq\":1,\"states\":0}\n".as_slice()
    );
    Ok(())
}

#[test]
fn full_tree_ends_the_session(rt: HostRuntime) -> Result<(), Fail> {
    let alloc = rt.alloc();
    let mut tree = Tree::<Toy>::open(alloc, 7, 3)?;
    let mut source = source(alloc, b"stat\nstat\nstat\nstat", 4, Vec::new(alloc))?;
    let mut sink = MemorySink::new(alloc, 100, 1000, Vec::new(alloc));
    let end = run_session(
        &rt,
        alloc,
        &Toy,
        &mut tree,
        1,
        &mut source,
        &mut sink,
        &OpenGate,
    );
    assert_eq!(rt; end, End::Full { entries: 3 });
    assert_eq!(rt; tree.length(), 3);
    Ok(())
}

#[test]
fn source_fails_at_each_call(rt: HostRuntime) -> Result<(), Fail> {
    let alloc = rt.alloc();
    // The first line ends in the second piece.
    let rows: [(usize, u64); 4] = [(0, 0), (1, 0), (2, 1), (3, 2)];
    for (call, entries) in rows {
        let failing = vec![in alloc; call]?;
        let left = session(
            &rt,
            alloc,
            &mut source(alloc, b"stat\nnope\n", 4, failing)?,
            1000,
        )?;
        assert_eq!(rt; left.end, End::ReadFault);
        assert_eq!(rt; left.entries, entries);
    }
    Ok(())
}

#[test]
fn sink_fails_at_each_byte(rt: HostRuntime) -> Result<(), Fail> {
    let alloc = rt.alloc();
    let both: &[u8] =
        b"{\"envs\":1,\"live\":0,\"seq\":0,\"states\":0}\n{\"envs\":1,\"live\":0,\"seq\":1,\"states\":0}\n";
    for room in 0..both.len() {
        let left = session(
            &rt,
            alloc,
            &mut source(alloc, b"stat\nstat", 9, Vec::new(alloc))?,
            room,
        )?;
        assert_eq!(rt; left.end, End::WriteFault);
        assert_eq!(rt; left.output.as_slice(), &both[..room]);
    }
    Ok(())
}

/// A sink that counts its flushes.
#[derive(Drop)]
struct Counting<'a> {
    flushes: &'a Cell<u64>,
}

impl<'a> Sink for Counting<'a> {
    ghost taken = { λ _. None };

    ghost faults = { λ _. 0 };

    ghost most_faults = { λ _. Prim.search rules };

    fn put(&mut self, piece: &[u8]) -> Result<usize, Failed> {
        Ok(piece.len())
    }

    fn flush(&mut self) -> Result<(), Failed> {
        self.flushes.set(self.flushes.get().saturating_add(1));
        Ok(())
    }
}

/// A source that gives a line a call, and ends where a line before has no flushed reply.
#[derive(Drop)]
struct Waiting<'a> {
    flushes: &'a Cell<u64>,
    given: u64,
}

impl<'a> Source for Waiting<'a> {
    ghost left = { λ _. None };

    ghost faults = { λ _. 0 };

    ghost most_faults = { λ _. Prim.search rules };

    fn take(&mut self, into: &mut [u8]) -> Result<usize, Failed> {
        if self.given == 5 || self.flushes.get() != self.given || into.len() < 2 {
            return Ok(0);
        }
        self.given = self.given.saturating_add(1);
        into[0] = b'x';
        into[1] = b'\n';
        Ok(2)
    }
}

#[test]
fn each_reply_is_flushed_before_the_next_read(rt: HostRuntime) -> Result<(), Fail> {
    let alloc = rt.alloc();
    let flushes = Cell::new(0);
    let mut tree = Tree::<Toy>::open(alloc, 7, 10)?;
    let mut source = Waiting {
        flushes: &flushes,
        given: 0,
    };
    let mut sink = Counting { flushes: &flushes };
    let end = run_session(
        &rt,
        alloc,
        &Toy,
        &mut tree,
        1,
        &mut source,
        &mut sink,
        &OpenGate,
    );
    assert_eq!(rt; end, End::Done);
    assert_eq!(rt; flushes.get(), 5);
    Ok(())
}
