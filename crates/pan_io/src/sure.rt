//! Ends that never fail.

ghost use Rattle.std.specs.Prelude.{ℕ, Some, None, drop, ◌≤◌, vec_len, ◌≡◌, ◌-◌, ◌^◌};
ghost use Rattle.std.proofs.Common.{rules};

use crate::memory_source::give;
use crate::sink::Sink;
use crate::source::{Failed, Source};

/// A source in memory that tells its bytes and never fails.
#[derive(Drop)]
pub struct SureSource {
    bytes: Vec<u8>,
    at: usize,
    ghost within: { at ≤ vec_len bytes },
}

impl SureSource {
    /// A source that tells these bytes from the first on.
    pub fn new(bytes: Vec<u8>) -> SureSource
        ensures bytes { result.bytes ≡ bytes }
        ensures at { result.at ≡ 0 }
    {
        SureSource { bytes, at: 0 }
    }
}

impl Source for SureSource {
    ghost left = { λ source. Some (drop source.at source.bytes.items) };

    ghost faults = { λ _. 0 };

    ghost most_faults = { λ _. Prim.search rules };

    fn take(&mut self, into: &mut [u8]) -> Result<usize, Failed> {
        let count = give(&self.bytes[self.at..], into, usize::MAX);
        self.at += count;
        Ok(count)
    }
}

/// A sink that drops what it is given, and never fails. It tells no bytes.
#[derive(Debug, Clone, Copy, PartialEq, Eq, Default, Drop)]
pub struct SureSink;

impl Sink for SureSink {
    ghost taken = { λ _. None };

    ghost faults = { λ _. 0 };

    ghost most_faults = { λ _. Prim.search rules };

    fn put(&mut self, piece: &[u8]) -> Result<usize, Failed> {
        Ok(piece.len())
    }

    fn flush(&mut self) -> Result<(), Failed> {
        Ok(())
    }
}
