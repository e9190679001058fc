//! The bytes of a session, up to the most that a session may use.

ghost use Rattle.std.specs.Prelude.{◌≡◌, ℕ, ◌≤◌, ◌^◌, ◌+◌, ◌-◌, [], drop, take, length, IfOk, is_some};
ghost use Rattle.std.specs.Io.KnownBytes.{Keeps};
ghost use Rattle.pan_io.specs.Ahead.{ahead};
ghost use Rattle.pan_io.specs.Faults.{Rose};

use crate::chunk::Chunk;
use crate::source::Source;
use std::alloc::{AllocError, Global};
use std::marker::Model;

/// The most bytes that a session may use.
pub const MAX_BYTES: u64 = 1_099_511_627_776;

/// What there is to read on.
#[derive(Debug, Clone, Copy, PartialEq, Eq, Drop)]
pub enum Ready {
    /// Bytes wait, and may be used.
    Bytes,
    /// No byte waits, and the input has ended.
    End,
    /// No byte waits, and the source failed.
    Fault,
    /// Bytes wait, and the session has used as many as it may.
    Long,
}

/// Contracts see the bytes that wait, and how many were used.
#[derive(Drop)]
pub struct Input {
    chunk: Chunk,
    used: u64,
}

impl Model for Input {
    ghost use Rattle.std.specs.Prelude.{◌≤◌, ◌^◌};
    ghost use Rattle.pan_io.specs.Waiting.{Waiting};

    ghost Value = { Waiting };

    ghost view = { λ input. record { pending = input.chunk; used = input.used } };

    ghost invariant = { λ input. input.used ≤ 2 ^ 40 };
}

impl Input {
    ghost use Rattle.pan_io.specs.Waiting.{IsReady};

    /// An input of which nothing was read. The error is want of memory.
    pub fn new(alloc: Global) -> Result<Input, AllocError>
        ensures { IfOk result (λ input. (input.pending ≡ []) × (input.used ≡ 0)) }
    {
        let chunk = Chunk::new(alloc)?;
        Ok(Input { chunk, used: 0 })
    }

    /// Sees that bytes wait, which may be used, or says why none do.
    pub fn ready<S: Source>(&mut self, source: &mut S) -> Ready
        ensures bytes { Keeps (ahead self.old.pending (S.left source.old)) (ahead self.new.pending (S.left source.new)) }
        ensures used { self.new.used ≡ self.old.used }
        ensures ready { IsReady (S.left source.new) self.new result }
        ensures most { self.new.used ≤ 2 ^ 40 }
        ensures tells { is_some (S.left source.new) ≡ is_some (S.left source.old) }
        ensures later { S.faults source.old ≤ S.faults source.new }
        ensures fault { result ≡ Ready.Fault → Rose (S.faults source.old) (S.faults source.new) }
    {
        if self.chunk.is_empty() && self.chunk.fill(source).is_err() {
            return Ready::Fault;
        }
        if self.chunk.is_empty() {
            return Ready::End;
        }
        if self.used == MAX_BYTES {
            return Ready::Long;
        }
        Ready::Bytes
    }

    /// The bytes that wait, as many as may be used.
    pub fn run(&self) -> &[u8]
        ensures run { result.now ≡ take (2 ^ 40 - self.now.used) self.now.pending }
        ensures most { self.now.used ≤ 2 ^ 40 }
    {
        let waiting = self.chunk.waiting();
        let most = MAX_BYTES - self.used;
        let count = most.min(waiting.len() as u64) as usize;
        &waiting[..count]
    }

    /// Uses the first bytes.
    pub fn skip(&mut self, count: usize)
        requires waits { count ≤ length self.old.pending }
        requires room { self.old.used + count ≤ 2 ^ 40 }
        ensures pending { self.new.pending ≡ drop count self.old.pending }
        ensures used { self.new.used ≡ self.old.used + count }
    {
        self.chunk.skip(count);
        self.used += count as u64;
    }
}
