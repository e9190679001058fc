//! Two links over one tree, a fault of the doors, and two sessions at once.

use super::*;
use pan_io::{Doors, Failed, MemoryDoors, MemoryLink, MemoryShelf, MemorySink, MemorySource, Sink};
use session_server::End;
use std::alloc::{AllocError, Global};
use std::sync::Wait;
use std::sync::atomic::{AtomicU64, Ordering};
use std::test::Fail;
use std::thread::Threads;
use worker_gate::{Gate, OpenGate};

/// The words of a line.
fn words_of(alloc: Global, line: &str) -> Result<Vec<String>, AllocError> {
    let mut words = Vec::new(alloc);
    for word in line.split(' ') {
        words.push(String::from_str(alloc, word)?)?;
    }
    Ok(words)
}

fn link(alloc: Global, input: &[u8]) -> Result<MemoryLink, AllocError> {
    let source = MemorySource::new(
        Vec::from_slice(alloc, input)?,
        Vec::new(alloc),
        Vec::new(alloc),
    );
    let sink = MemorySink::new(alloc, 3, 10_000, Vec::new(alloc));
    Ok(MemoryLink::new(source, sink))
}

/// What serving left.
#[derive(Drop)]
struct Left {
    ended: Ended<MemorySource, MemorySink>,
    notes: Vec<u8>,
}

/// Serves links of these inputs over no book, where these calls of the doors fail.
fn serve<R: Threads + Wait + Sync>(
    rt: &R,
    alloc: Global,
    line: &str,
    inputs: &[&[u8]],
    failing: Vec<usize>,
) -> Result<Left, AllocError> {
    let words = words_of(alloc, line)?;
    let mut links = Vec::new(alloc);
    for input in inputs {
        links.push(link(alloc, input)?)?;
    }
    let mut doors = MemoryDoors::new(alloc, links, failing);
    let mut shelf = MemoryShelf::new(Vec::new(alloc), Vec::new(alloc));
    let mut notes = MemorySink::new(alloc, 0, 1000, Vec::new(alloc));
    let ended = panto_serve(
        rt, alloc, &words, &mut shelf, &mut doors, &mut notes, &OpenGate,
    );
    Ok(Left {
        ended,
        notes: Vec::from_slice(alloc, notes.bytes())?,
    })
}

#[test]
fn two_links_grow_one_tree(rt: HostRuntime) -> Result<(), Fail> {
    let alloc = rt.alloc();
    let inputs: [&[u8]; 2] = [
        b"expr.echo {\"expr\":\"*\",\"after\":9}\n",
        b"goal.start {\"expr\":\"(A : *) -> A -> A\"}\n\n",
    ];
    let left = serve(
        &rt,
        alloc,
        "serve --listen here --sessions 2",
        &inputs,
        Vec::new(alloc),
    )?;
    assert_eq!(rt; left.ended.status, Status::Done);
    assert_eq!(rt; left.notes.as_slice(), b"panto: listening\n".as_slice());
    assert_eq!(rt; left.ended.served.len(), 2);
    let Some(journal) = &left.ended.journal else {
        panic!(rt; "no journal");
    };
    assert_eq!(rt; journal.len(), 2);
    let first = left.ended.served[0].output.bytes();
    let second = left.ended.served[1].output.bytes();
    let started =
        b"{\"dormant\":[],\"goals\":[{\"coupled\":[],\"goal\":0,\"target\":\"(%0 : *) -> %0 -> %0\",\"vars\":[]}],\"seq\":";
    assert!(rt; second.starts_with(started));
    // Whichever came first: the other one stands behind it.
    if journal[0].pass == 0 {
        assert_eq!(rt;
            first,
            b"{\"error\":\"ahead\",\"length\":0,\"seq\":0}\n".as_slice()
        );
        assert!(rt; second.ends_with(b"\"seq\":1,\"solved\":false,\"stateId\":0}\n"));
    } else {
        assert_eq!(rt;
            first,
            b"{\"error\":\"ahead\",\"length\":1,\"seq\":1}\n".as_slice()
        );
        assert!(rt; second.ends_with(b"\"seq\":0,\"solved\":false,\"stateId\":0}\n"));
    }
    Ok(())
}

#[test]
fn doors_that_fail_take_no_more_links(rt: HostRuntime) -> Result<(), Fail> {
    let alloc = rt.alloc();
    let inputs: [&[u8]; 2] = [b"stat\nnope\n", b"stat\n"];
    // The first call listens, the second one accepts a link.
    let left = serve(
        &rt,
        alloc,
        "serve --sessions=3 --listen here",
        &inputs,
        vec![in alloc; 2]?,
    )?;
    assert_eq!(rt; left.ended.status, Status::OpenFault);
    assert_eq!(rt;
        left.notes.as_slice(),
        b"panto: listening\npanto: door fault\n".as_slice()
    );
    assert_eq!(rt; left.ended.served.len(), 1);
    assert_eq!(rt;
        left.ended.served[0].output.bytes(),
        b"{\"envs\":1,\"live\":0,\"seq\":0,\"states\":0}\n{\"error\":\"command\",\"seq\":1}\n".as_slice()
    );
    assert!(rt; left.ended.last.is_some());
    Ok(())
}

#[test]
fn doors_that_cannot_listen_serve_nothing(rt: HostRuntime) -> Result<(), Fail> {
    let alloc = rt.alloc();
    let inputs: [&[u8]; 1] = [b"stat\n"];
    let left = serve(
        &rt,
        alloc,
        "serve --listen here",
        &inputs,
        vec![in alloc; 0]?,
    )?;
    assert_eq!(rt; left.ended.status, Status::OpenFault);
    assert_eq!(rt; left.notes.as_slice(), b"panto: door fault\n".as_slice());
    assert!(rt; left.ended.served.is_empty());
    let Some(journal) = &left.ended.journal else {
        panic!(rt; "no journal");
    };
    assert!(rt; journal.is_empty());
    Ok(())
}

#[test]
fn the_least_link_that_was_not_done_names_the_status(rt: HostRuntime) -> Result<(), Fail> {
    let alloc = rt.alloc();
    let inputs: [&[u8]; 3] = [b"", b"stat\nstat\n", b"stat\nstat\n"];
    let left = serve(
        &rt,
        alloc,
        "serve --entries 1 --sessions 3 --listen here",
        &inputs,
        Vec::new(alloc),
    )?;
    assert_eq!(rt; left.ended.status, Status::Full);
    assert_eq!(rt;
        left.notes.as_slice(),
        b"panto: listening\npanto: full 1\n".as_slice()
    );
    assert_eq!(rt; left.ended.served.len(), 3);
    assert_eq!(rt; left.ended.served[0].end, End::Done);
    assert_eq!(rt; left.ended.served[2].end, End::Full { entries: 1 });
    Ok(())
}

#[test]
fn other_words_open_nothing(rt: HostRuntime) -> Result<(), Fail> {
    let alloc = rt.alloc();
    let rows = [
        ("run", Status::Usage),
        ("check F", Status::Usage),
        ("serve", Status::Usage),
        ("serve --sessions 2", Status::Usage),
        ("serve --listen here --sessions 0", Status::Usage),
        ("serve --listen here --sessions 65", Status::Usage),
        ("serve --listen here --listen there", Status::Usage),
        ("serve --listen -x", Status::Usage),
        ("serve --listen here --book F", Status::OpenFault),
    ];
    for (line, status) in rows {
        let left = serve(&rt, alloc, line, &[], Vec::new(alloc))?;
        assert_eq!(rt; left.ended.status, status);
        assert!(rt; left.ended.served.is_empty() && left.ended.journal.is_none());
        assert!(rt; left.ended.last.is_none());
    }
    Ok(())
}

/// An output that tells of its first reply, if it is that of the second link.
#[derive(Drop)]
struct Announcing<'a, K> {
    sink: K,
    second: bool,
    answered: &'a AtomicU64,
}

impl<'a, K: Sink> Sink for Announcing<'a, K> {
    ghost taken = { λ announcing. K.taken announcing.sink };

    ghost faults = { λ announcing. K.faults announcing.sink };

    ghost most_faults = { λ announcing. K.most_faults announcing.sink };

    fn put(&mut self, piece: &[u8]) -> Result<usize, Failed> {
        self.sink.put(piece)
    }

    fn flush(&mut self) -> Result<(), Failed> {
        if self.second {
            self.answered.store(1, Ordering::SeqCst);
        }
        self.sink.flush()
    }
}

/// Doors, of whose links the second one tells of its first reply.
#[derive(Drop)]
struct AnnouncingDoors<'a, D> {
    doors: D,
    given: u32,
    answered: &'a AtomicU64,
}

impl<'a, D: Doors> Doors for AnnouncingDoors<'a, D> {
    type In = D::In;

    type Out = Announcing<'a, D::Out>;

    ghost listens_on = { λ it. D.listens_on it.doors };

    ghost links = { λ it. D.links it.doors };

    ghost faults = { λ it. D.faults it.doors };

    ghost most_faults = { λ it. D.most_faults it.doors };

    fn listen(&mut self, address: &str) -> Result<(), Failed> {
        self.doors.listen(address)
    }

    fn accept(&mut self) -> Result<(D::In, Announcing<'a, D::Out>), Failed> {
        let (input, sink) = self.doors.accept()?;
        let second = self.given == 1;
        self.given = self.given.saturating_add(1);
        Ok((
            input,
            Announcing {
                sink,
                second,
                answered: self.answered,
            },
        ))
    }
}

/// Holds the jobs of pass 0 until the second link was answered, and fails after 10,000,000 turns.
#[derive(Drop)]
struct HoldsTheFirst<'a> {
    answered: &'a AtomicU64,
    failed: AtomicU64,
}

impl<'a> Gate for HoldsTheFirst<'a> {
    fn start(&self, pass: u32, _job: u32) {
        if pass != 0 {
            return;
        }
        for _ in 0..10_000_000u32 {
            if self.answered.load(Ordering::SeqCst) == 1 {
                return;
            }
            std::thread::yield_now();
        }
        self.failed.store(1, Ordering::SeqCst);
    }
}

#[test]
fn two_sessions_at_once(rt: HostRuntime) -> Result<(), Fail> {
    let alloc = rt.alloc();
    let answered = AtomicU64::new(0);
    let words = words_of(alloc, "serve --listen here --sessions 2")?;
    let links = vec![in alloc; link(alloc, b"stat\n")?, link(alloc, b"stat\n")?]?;
    let mut doors = AnnouncingDoors {
        doors: MemoryDoors::new(alloc, links, Vec::new(alloc)),
        given: 0,
        answered: &answered,
    };
    let mut shelf = MemoryShelf::new(Vec::new(alloc), Vec::new(alloc));
    let mut notes = MemorySink::new(alloc, 0, 1000, Vec::new(alloc));
    let gate = HoldsTheFirst {
        answered: &answered,
        failed: AtomicU64::new(0),
    };
    let ended = panto_serve(
        &rt, alloc, &words, &mut shelf, &mut doors, &mut notes, &gate,
    );
    assert_eq!(rt; ended.status, Status::Done);
    assert_eq!(rt; gate.failed.load(Ordering::SeqCst), 0);
    assert_eq!(rt; ended.served.len(), 2);
    assert_eq!(rt;
        ended.served[1].output.sink.bytes(),
        b"{\"envs\":1,\"live\":0,\"seq\":0,\"states\":0}\n".as_slice()
    );
    assert_eq!(rt;
        ended.served[0].output.sink.bytes(),
        b"{\"envs\":1,\"live\":0,\"seq\":1,\"states\":0}\n".as_slice()
    );
    Ok(())
}
