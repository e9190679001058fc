//! A sink in memory.

ghost use Rattle.std.specs.Prelude.{ℕ, Some, ◌≡◌, ◌≤◌, ◌-◌, ◌^◌, []};

use crate::fault_count::FaultCount;
use crate::sink::Sink;
use crate::source::Failed;
use std::alloc::Global;

/// A sink that tells its bytes. It takes at most a number of bytes in a call, fails where it is
/// asked to, and once it has taken a number of bytes in all. Want of memory is a fault too.
#[derive(Drop)]
pub struct MemorySink {
    bytes: Vec<u8>,
    most: usize,
    room: usize,
    failing: Vec<usize>,
    calls: usize,
    faults: FaultCount,
}

impl MemorySink {
    /// `most` is the most bytes that a call takes, where 0 counts as 1, and `room` the number of
    /// bytes after which each `put` fails. The calls that fail, of `put` and `flush` together, are
    /// numbered from 0.
    pub fn new(alloc: Global, most: usize, room: usize, failing: Vec<usize>) -> MemorySink
        ensures bytes { result.bytes.items ≡ [] }
        ensures most { result.most ≡ most }
        ensures room { result.room ≡ room }
        ensures failing { result.failing ≡ failing }
        ensures calls { result.calls ≡ 0 }
        ensures faults { result.faults.count ≡ 0 }
    {
        MemorySink {
            bytes: Vec::new(alloc),
            most,
            room,
            failing,
            calls: 0,
            faults: FaultCount::new(),
        }
    }

    /// The bytes that were taken.
    pub fn bytes(&self) -> &[u8]
        ensures { result.now ≡ self.now.bytes.items }
    {
        &self.bytes
    }
}

impl Sink for MemorySink {
    ghost taken = { λ sink. Some sink.bytes.items };

    ghost faults = { λ sink. sink.faults.count };

    ghost most_faults = { λ sink. sink.faults.within };

    fn put(&mut self, piece: &[u8]) -> Result<usize, Failed> {
        let call = self.calls;
        self.calls = self.calls.saturating_add(1);
        let room = self.room.saturating_sub(self.bytes.len());
        if self.failing.contains(&call) || room == 0 {
            return Err(self.faults.add());
        }
        let count = piece.len().min(self.most.max(1)).min(room);
        if self.bytes.extend_from_slice(&piece[..count]).is_err() {
            return Err(self.faults.add());
        }
        Ok(count)
    }

    fn flush(&mut self) -> Result<(), Failed> {
        let call = self.calls;
        self.calls = self.calls.saturating_add(1);
        if self.failing.contains(&call) {
            return Err(self.faults.add());
        }
        Ok(())
    }
}
