//! The standard streams of the process. They tell no bytes.

ghost use Rattle.std.specs.Prelude.{◌≡◌, ◌≤◌, ◌-◌, ◌^◌, ℕ, None, IfOk};

use crate::fault_count::FaultCount;
use crate::sink::Sink;
use crate::source::{Failed, Source};
use crate::system::{flush_out, read_from, write_to};
use std::alloc::{AllocError, Global};
use std::io::{BufWriter, Stderr, Stdin, Stdout};

/// Standard input. Each call reads once, straight into the caller's buffer.
#[derive(Drop)]
pub struct StdIn {
    stream: Stdin,
    faults: FaultCount,
}

impl StdIn {
    /// The source of what standard input gives.
    pub fn new(stream: Stdin) -> StdIn
        ensures { result.faults.count ≡ 0 }
    {
        StdIn {
            stream,
            faults: FaultCount::new(),
        }
    }
}

impl Source for StdIn {
    ghost left = { λ _. None };

    ghost faults = { λ input. input.faults.count };

    ghost most_faults = { λ input. input.faults.within };

    fn take(&mut self, into: &mut [u8]) -> Result<usize, Failed> {
        read_from(&mut self.stream, into, &mut self.faults)
    }
}

/// Standard output. What is put waits in a buffer of 8 KiB, until that is full or flushed.
#[derive(Drop)]
pub struct StdOut {
    stream: BufWriter<Stdout>,
    faults: FaultCount,
}

impl StdOut {
    /// Takes all the memory that putting needs. Fails for want of memory alone.
    pub fn new(alloc: Global, stream: Stdout) -> Result<StdOut, AllocError>
        ensures { IfOk result (λ output. output.faults.count ≡ 0) }
    {
        let Ok(stream) = BufWriter::new(alloc, stream) else {
            return Err(AllocError);
        };
        Ok(StdOut {
            stream,
            faults: FaultCount::new(),
        })
    }
}

impl Sink for StdOut {
    ghost taken = { λ _. None };

    ghost faults = { λ output. output.faults.count };

    ghost most_faults = { λ output. output.faults.within };

    fn put(&mut self, piece: &[u8]) -> Result<usize, Failed> {
        write_to(&mut self.stream, piece, &mut self.faults)
    }

    fn flush(&mut self) -> Result<(), Failed> {
        flush_out(&mut self.stream, &mut self.faults)
    }
}

/// Standard error. Each call writes once.
#[derive(Drop)]
pub struct StdErr {
    stream: Stderr,
    faults: FaultCount,
}

impl StdErr {
    /// The sink that writes to standard error.
    pub fn new(stream: Stderr) -> StdErr
        ensures { result.faults.count ≡ 0 }
    {
        StdErr {
            stream,
            faults: FaultCount::new(),
        }
    }
}

impl Sink for StdErr {
    ghost taken = { λ _. None };

    ghost faults = { λ output. output.faults.count };

    ghost most_faults = { λ output. output.faults.within };

    fn put(&mut self, piece: &[u8]) -> Result<usize, Failed> {
        write_to(&mut self.stream, piece, &mut self.faults)
    }

    fn flush(&mut self) -> Result<(), Failed> {
        flush_out(&mut self.stream, &mut self.faults)
    }
}
