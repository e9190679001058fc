//! The line that is being read.

ghost use Rattle.std.specs.Prelude.{◌≡◌, ◌==◌, ℕ, ◌≤◌, ◌<◌, ◌+◌, ◌^◌, List, [], ◌++◌, length, take, vec_len, IfOk};
ghost use Rattle.std.specs.Vec.{vec_capacity};
ghost use Rattle.std.specs.Str.Lines.{strip_carriage_return};
ghost use Rattle.pan_io.specs.Kept.{Kept, Holds};

use std::alloc::{AllocError, Global};
use std::marker::Model;

/// The most bytes of a line that is kept.
pub const MAX_LINE: u64 = 65_536;

/// One more than the longest line, since a carriage return may follow.
const ROOM: usize = MAX_LINE as usize + 1;

/// Contracts see how many bytes came, the first of them, and the last one.
#[derive(Drop)]
pub struct Draft {
    bytes: Vec<u8>,
    count: u64,
    last: u8,
}

impl Model for Draft {
    ghost Value = { Kept };

    ghost view = { λ draft. record { count = draft.count; front = draft.bytes.items; last = draft.last } };

    ghost invariant = { λ draft. (vec_len draft.bytes ≤ 65537) × (65537 ≤ vec_capacity draft.bytes) };
}

impl Draft {
    /// The draft of a line of which no byte has come. The error is want of memory.
    pub fn new(alloc: Global) -> Result<Draft, AllocError>
        ensures { IfOk result (λ draft. Holds draft []) }
    {
        let bytes = Vec::with_capacity(alloc, ROOM)?;
        Ok(Draft {
            bytes,
            count: 0,
            last: 0,
        })
    }

    /// Begins the next line.
    pub fn clear(&mut self)
        ensures { Holds self.new [] }
    {
        self.bytes.clear();
        self.count = 0;
        self.last = 0;
    }

    /// Adds a run of bytes, and keeps as many as there is room for.
    pub fn extend(&mut self, run: &[u8])
        requires { self.old.count + length run.now < 2 ^ 63 }
        ensures { (raw : List ℕ) → Holds self.old raw → Holds self.new (raw ++ run.now) }
    {
        if run.is_empty() {
            return;
        }
        let room = ROOM - self.bytes.len();
        let kept = run.len().min(room);
        let _ = self.bytes.extend_from_slice(&run[..kept]);
        self.count += run.len() as u64;
        self.last = run[run.len() - 1];
    }

    /// The length of the line, without a carriage return at its end.
    pub fn line_len(&self) -> u64
        ensures { (raw : List ℕ) → Holds self.now raw → result ≡ length (strip_carriage_return raw) }
    {
        if self.last == 13 && self.count > 0 {
            self.count - 1
        } else {
            self.count
        }
    }

    /// Whether no byte of the line has come.
    pub fn is_empty(&self) -> bool
        ensures { result ≡ (self.now.count == 0) }
    {
        self.count == 0
    }

    /// The length of the line where it is kept whole, and else 0.
    pub fn kept_len(&self) -> usize
        ensures within { result ≤ 65536 }
        ensures line { (raw : List ℕ) → Holds self.now raw → length (strip_carriage_return raw) ≤ 65536
            → result ≡ length (strip_carriage_return raw) }
        ensures none { (raw : List ℕ) → Holds self.now raw → 65536 < length (strip_carriage_return raw) → result ≡ 0 }
    {
        let len = self.line_len();
        if len > MAX_LINE { 0 } else { len as usize }
    }

    /// The first bytes.
    pub fn front(&self, len: usize) -> &[u8]
        ensures { result.now ≡ take len self.now.front }
    {
        let len = len.min(self.bytes.len());
        &self.bytes[..len]
    }
}
