//! Moves that are tried side by side.

use crate::panto_run;
use pan_io::{MemoryShelf, MemorySink, MemorySource};
use std::alloc::{AllocError, Global};
use std::sync::atomic::{AtomicU64, Ordering};
use std::test::Fail;
use std::thread::Threads;
use worker_gate::Gate;

const LINES: &[u8] = b"goal.start {\"expr\":\"(A : *) -> A -> A\"}\n\
    goal.move {\"stateId\":0,\"move\":\"intro A\"}\n\
    goal.tries {\"stateId\":1,\"tries\":[{\"move\":\"intro A\"},{\"move\":\"intro x\"},{\"move\":\"intro y\"},{\"move\":\"exact A\"},{\"move\":\"intro z\"}]}\n";

/// The replies to the first two lines.
const STARTED: &str =
    "{\"dormant\":[],\"goals\":[{\"coupled\":[],\"goal\":0,\"target\":\"(%0 : *) -> %0 -> %0\",\"vars\":[]}],\"seq\":0,\"solved\":false,\"stateId\":0}\n\
    {\"dormant\":[],\"goals\":[{\"coupled\":[],\"goal\":1,\"target\":\"A -> A\",\"vars\":[{\"name\":\"A\",\"type\":\"*\"}]}],\"seq\":1,\"solved\":false,\"stateId\":1}\n";

/// The replies to the first two tries.
const TWO: &str = "{\"error\":\"nameTaken\",\"name\":\"A\",\"seq\":2}\n\
    {\"dormant\":[],\"goals\":[{\"coupled\":[],\"goal\":2,\"target\":\"A\",\"vars\":[{\"name\":\"A\",\"type\":\"*\"},{\"name\":\"x\",\"type\":\"A\"}]}],\"seq\":3,\"solved\":false,\"stateId\":2}\n";

/// The replies to the others.
const THREE: &str =
    "{\"dormant\":[],\"goals\":[{\"coupled\":[],\"goal\":2,\"target\":\"A\",\"vars\":[{\"name\":\"A\",\"type\":\"*\"},{\"name\":\"y\",\"type\":\"A\"}]}],\"seq\":4,\"solved\":false,\"stateId\":3}\n\
    {\"error\":\"mismatch\",\"found\":\"*\",\"seq\":5,\"wanted\":\"%0 -> %0\"}\n\
    {\"dormant\":[],\"goals\":[{\"coupled\":[],\"goal\":2,\"target\":\"A\",\"vars\":[{\"name\":\"A\",\"type\":\"*\"},{\"name\":\"z\",\"type\":\"A\"}]}],\"seq\":6,\"solved\":false,\"stateId\":4}\n";

/// Counts the jobs that it hears of, and adds up their positions.
#[derive(Drop)]
struct Counts {
    jobs: AtomicU64,
    positions: AtomicU64,
}

impl Gate for Counts {
    fn start(&self, _pass: u32, job: u32) {
        self.jobs.fetch_add(1, Ordering::SeqCst);
        self.positions.fetch_add(job as u64, Ordering::SeqCst);
    }
}

/// What a run leaves.
#[derive(Drop)]
struct Ran {
    code: u8,
    output: Vec<u8>,
    notes: Vec<u8>,
    jobs: u64,
    positions: u64,
}

/// A run on the lines by so many workers, with room for so many entries.
fn tried<R: Threads + Sync>(
    rt: &R,
    alloc: Global,
    workers: &str,
    entries: &str,
) -> Result<Ran, AllocError> {
    let words = vec![in alloc;
        String::from_str(alloc, "run")?,
        String::from_str(alloc, "--workers")?,
        String::from_str(alloc, workers)?,
        String::from_str(alloc, "--entries")?,
        String::from_str(alloc, entries)?,
    ]?;
    let mut shelf = MemoryShelf::new(Vec::new(alloc), Vec::new(alloc));
    let bytes = Vec::from_slice(alloc, LINES)?;
    let mut input = MemorySource::new(bytes, Vec::new(alloc), Vec::new(alloc));
    let mut output = MemorySink::new(alloc, 0, 10_000, Vec::new(alloc));
    let mut notes = MemorySink::new(alloc, 0, 100, Vec::new(alloc));
    let gate = Counts {
        jobs: AtomicU64::new(0),
        positions: AtomicU64::new(0),
    };
    let status = panto_run(
        rt,
        alloc,
        &words,
        &mut shelf,
        &mut input,
        &mut output,
        &mut notes,
        &gate,
    );
    Ok(Ran {
        code: status.code(),
        output: Vec::from_slice(alloc, output.bytes())?,
        notes: Vec::from_slice(alloc, notes.bytes())?,
        jobs: gate.jobs.load(Ordering::SeqCst),
        positions: gate.positions.load(Ordering::SeqCst),
    })
}

#[test]
fn tries_are_answered_in_order(rt: HostRuntime) -> Result<(), Fail> {
    let alloc = rt.alloc();
    let mut wanted = Vec::from_slice(alloc, STARTED.as_bytes())?;
    wanted.extend_from_slice(TWO.as_bytes())?;
    wanted.extend_from_slice(THREE.as_bytes())?;
    for workers in ["1", "2", "64"] {
        let left = tried(&rt, alloc, workers, "7")?;
        assert_eq!(rt; left.output.as_slice(), wanted.as_slice());
        assert_eq!(rt; left.code, 0);
        assert_eq!(rt; left.jobs, 7);
        assert_eq!(rt; left.positions, 10);
    }
    Ok(())
}

#[test]
fn tries_without_room_are_not_entered(rt: HostRuntime) -> Result<(), Fail> {
    let alloc = rt.alloc();
    let mut wanted = Vec::from_slice(alloc, STARTED.as_bytes())?;
    wanted.extend_from_slice(TWO.as_bytes())?;
    let left = tried(&rt, alloc, "2", "4")?;
    assert_eq!(rt; left.output.as_slice(), wanted.as_slice());
    assert_eq!(rt; left.notes.as_slice(), b"panto: full 4\n".as_slice());
    assert_eq!(rt; left.code, 6);
    Ok(())
}
