//! A source in memory.

ghost use Rattle.std.specs.Prelude.{ℕ, Some, drop, ◌≤◌, vec_len, ◌≡◌, ◌<◌, ◌-◌, ◌^◌, length, take};

use crate::fault_count::FaultCount;
use crate::source::{Failed, Source};

/// A source that tells its bytes. It gives them in pieces of the lengths told, and fails where it
/// is asked to.
#[derive(Drop)]
pub struct MemorySource {
    bytes: Vec<u8>,
    at: usize,
    pieces: Vec<usize>,
    failing: Vec<usize>,
    calls: usize,
    faults: FaultCount,
    ghost within: { at ≤ vec_len bytes },
}

impl MemorySource {
    /// The pieces are the most bytes that each call gives, and the last of them holds for all
    /// further calls. A 0 counts as 1, and without pieces no call has a bound. The calls that fail
    /// are numbered from 0.
    pub fn new(bytes: Vec<u8>, pieces: Vec<usize>, failing: Vec<usize>) -> MemorySource
        ensures bytes { result.bytes ≡ bytes }
        ensures at { result.at ≡ 0 }
        ensures pieces { result.pieces ≡ pieces }
        ensures failing { result.failing ≡ failing }
        ensures calls { result.calls ≡ 0 }
        ensures faults { result.faults.count ≡ 0 }
    {
        MemorySource {
            bytes,
            at: 0,
            pieces,
            failing,
            calls: 0,
            faults: FaultCount::new(),
        }
    }

    /// The most bytes that this call gives.
    fn piece(&self, call: usize) -> usize
        ensures { 0 < result }
    {
        let piece = self.pieces.get(call).or(self.pieces.last());
        piece.copied().unwrap_or(usize::MAX).max(1)
    }
}

impl Source for MemorySource {
    ghost left = { λ source. Some (drop source.at source.bytes.items) };

    ghost faults = { λ source. source.faults.count };

    ghost most_faults = { λ source. source.faults.within };

    fn take(&mut self, into: &mut [u8]) -> Result<usize, Failed> {
        let call = self.calls;
        self.calls = self.calls.saturating_add(1);
        if self.failing.contains(&call) {
            return Err(self.faults.add());
        }
        let most = self.piece(call);
        let count = give(&self.bytes[self.at..], into, most);
        self.at += count;
        Ok(count)
    }
}

/// Copies a prefix of the bytes, as long as the buffer and the bound let it be.
pub fn give(bytes: &[u8], into: &mut [u8], most: usize) -> usize
    requires { 0 < most }
    ensures within { result ≤ length bytes.now }
    ensures fits { result ≤ length into.new }
    ensures copied { take result into.new ≡ take result bytes.now }
    ensures none { result ≡ 0 → 0 < length into.new → length bytes.now ≡ 0 }
{
    let count = most.min(into.len()).min(bytes.len());
    into[..count].copy_from_slice(&bytes[..count]);
    count
}
