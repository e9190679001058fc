//! The bytes that were taken from a source and not yet used.

ghost use Rattle.std.specs.Prelude.{◌≡◌, ℕ, ◌≤◌, ◌<◌, List, [], length, drop, slice_range, vec_len, ◌==◌, IfOk, OnOk, OnErr, is_some};
ghost use Rattle.std.specs.Io.KnownBytes.{Keeps, IsAtEnd};
ghost use Rattle.pan_io.specs.Ahead.{ahead};
ghost use Rattle.pan_io.specs.Faults.{HasCause};

use crate::source::{Failed, Source};
use std::alloc::{AllocError, Global};
use std::marker::Model;

/// How many bytes are asked for at a time.
const CHUNK: usize = 8192;

/// Contracts see the bytes that wait, in order.
#[derive(Drop)]
pub struct Chunk {
    bytes: Vec<u8>,
    from: usize,
    till: usize,
}

impl Model for Chunk {
    ghost Value = { List ℕ };

    ghost view = { λ chunk. slice_range chunk.bytes.items chunk.from chunk.till };

    ghost invariant = { λ chunk. (chunk.from ≤ chunk.till) × (chunk.till ≤ vec_len chunk.bytes) × (vec_len chunk.bytes ≡ 8192) };
}

impl Chunk {
    /// An empty chunk of 8,192 bytes. The error is want of memory.
    pub fn new(alloc: Global) -> Result<Chunk, AllocError>
        ensures { IfOk result (λ chunk. chunk ≡ []) }
    {
        let bytes = vec![in alloc; 0; CHUNK]?;
        Ok(Chunk {
            bytes,
            from: 0,
            till: 0,
        })
    }

    /// Whether no byte waits in it.
    pub fn is_empty(&self) -> bool
        ensures { result ≡ (length self.now == 0) }
    {
        self.from == self.till
    }

    /// The bytes that were read and not yet taken.
    pub fn waiting(&self) -> &[u8]
        ensures { result.now ≡ self.now }
    {
        &self.bytes[self.from..self.till]
    }

    /// Drops the first bytes, which were used.
    pub fn skip(&mut self, count: usize)
        requires { count ≤ length self.old }
        ensures { self.new ≡ drop count self.old }
    {
        self.from += count;
    }

    /// Takes further bytes from the source. None come only at its end.
    pub fn fill<S: Source>(&mut self, source: &mut S) -> Result<(), Failed>
        requires { self.old ≡ [] }
        ensures bytes { Keeps (S.left source.old) (ahead self.new (S.left source.new)) }
        ensures end { OnOk result (self.new ≡ [] → IsAtEnd (S.left source.new)) }
        ensures failed { OnErr result (self.new ≡ []) }
        ensures tells { is_some (S.left source.new) ≡ is_some (S.left source.old) }
        ensures cause { HasCause (S.faults source.old) (S.faults source.new) result }
    {
        self.from = 0;
        self.till = 0;
        let count = source.take(&mut self.bytes)?;
        self.till = count;
        Ok(())
    }
}
