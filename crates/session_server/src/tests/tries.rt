//! Lines of `goal.tries`, whose work is shared out to workers.

ghost use Rattle.std.specs.Prelude.{◌<◌, ◌≤◌};

use super::Toy;
use crate::{End, run_session};
use pan_io::{MemorySink, MemorySource};
use state_tree::Tree;
use std::alloc::{AllocError, Global};
use std::sync::atomic::{AtomicU64, Ordering};
use std::test::Fail;
use std::thread;
use std::thread::Threads;
use worker_gate::Gate;

/// Counts how often it hears of each of four positions. It fails where it hears of another pass than 0 or of another position.
#[derive(Drop)]
struct Counts {
    started: [AtomicU64; 4],
    failed: AtomicU64,
}

impl Counts {
    fn new() -> Counts {
        Counts {
            started: [
                AtomicU64::new(0),
                AtomicU64::new(0),
                AtomicU64::new(0),
                AtomicU64::new(0),
            ],
            failed: AtomicU64::new(0),
        }
    }

    fn at(&self, job: usize) -> u64
        requires { job < 4 }
    {
        self.started[job].load(Ordering::SeqCst)
    }

    fn hear(&self, pass: u32, job: u32) {
        if pass != 0 || job >= 4 {
            self.failed.fetch_add(1, Ordering::SeqCst);
            return;
        }
        self.started[job as usize].fetch_add(1, Ordering::SeqCst);
    }

    fn await_start(&self, job: usize)
        requires { job < 4 }
    {
        for _ in 0..10_000_000 {
            if self.at(job) > 0 {
                return;
            }
            thread::yield_now();
        }
        self.failed.fetch_add(1, Ordering::SeqCst);
    }
}

impl Gate for Counts {
    fn start(&self, pass: u32, job: u32) {
        self.hear(pass, job);
    }
}

/// The same, and it holds job 2 until job 0 has started, and job 0 until the jobs 1, 2 and 3 have started.
#[derive(Drop)]
struct Holds(Counts);

impl Gate for Holds {
    fn start(&self, pass: u32, job: u32) {
        self.0.hear(pass, job);
        if job == 2 {
            self.0.await_start(0);
        }
        if job == 0 {
            self.0.await_start(1);
            self.0.await_start(2);
            self.0.await_start(3);
        }
    }
}

const FOUR: &[u8] =
    b"goal.tries {\"stateId\":0,\"tries\":[{\"move\":\"intro A\"},{\"move\":\"intro B\"},{\"move\":\"intro C\"},{\"move\":\"intro D\"}]}";

/// What a session with so many workers writes, where it comes to the end of its input.
fn written<R: Threads + Sync, G: Gate>(
    rt: &R,
    alloc: Global,
    workers: u32,
    input: &[u8],
    gate: &G,
) -> Result<Option<Vec<u8>>, AllocError>
    requires { (0 < workers) × (workers ≤ 64) }
{
    let mut tree = Tree::<Toy>::open(alloc, 7, 10)?;
    let bytes = Vec::from_slice(alloc, input)?;
    let mut source = MemorySource::new(bytes, Vec::new(alloc), Vec::new(alloc));
    let mut sink = MemorySink::new(alloc, 1000, 1000, Vec::new(alloc));
    let end = run_session(
        rt,
        alloc,
        &Toy,
        &mut tree,
        workers,
        &mut source,
        &mut sink,
        gate,
    );
    if end != End::Done {
        return Ok(None);
    }
    Ok(Some(Vec::from_slice(alloc, sink.bytes())?))
}

#[test]
fn workers_take_tries_from_each_other(rt: HostRuntime) -> Result<(), Fail> {
    let gate = Holds(Counts::new());
    let Some(output) = written(&rt, rt.alloc(), 2, FOUR, &gate)? else {
        return Err(Fail::new("another end"));
    };
    assert_eq!(rt;
        output.as_slice(),
        b"{\"error\":\"unknownState\",\"id\":0,\"seq\":0}\n{\"error\":\"unknownState\",\"id\":0,\"seq\":1}\n{\"error\":\"unknownState\",\"id\":0,\"seq\":2}\n{\"error\":\"unknownState\",\"id\":0,\"seq\":3}\n".as_slice()
    );
    assert_eq!(rt; gate.0.failed.load(Ordering::SeqCst), 0);
    for job in 0..4 {
        assert_eq!(rt; gate.0.at(job), 1);
    }
    Ok(())
}

#[test]
fn the_gate_hears_of_each_request(rt: HostRuntime) -> Result<(), Fail> {
    for workers in [1, 2, 64] {
        let gate = Counts::new();
        let one: Option<Vec<u8>> = written(&rt, rt.alloc(), workers, b"stat\nnope\n\nstat", &gate)?;
        assert!(rt; one.is_some());
        assert_eq!(rt; gate.at(0), 3);
        let four = written(&rt, rt.alloc(), workers, FOUR, &gate)?;
        assert!(rt; four.is_some());
        assert_eq!(rt; gate.at(0), 4);
        for job in 1..4 {
            assert_eq!(rt; gate.at(job), 1);
        }
        assert_eq!(rt; gate.failed.load(Ordering::SeqCst), 0);
    }
    Ok(())
}
