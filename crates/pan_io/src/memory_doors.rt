//! Doors in memory.

ghost use Rattle.std.specs.Prelude.{ℕ, List, Some, drop, map, ◌≡◌, ◌≤◌, ◌-◌, ◌^◌, [], ◌∷◌};

use crate::doors::Doors;
use crate::fault_count::FaultCount;
use crate::memory_sink::MemorySink;
use crate::memory_source::MemorySource;
use crate::source::Failed;
use std::alloc::Global;
use std::collections::VecDeque;

/// A link in memory, of which no half was called yet.
#[derive(Drop)]
pub struct MemoryLink {
    input: MemorySource,
    output: MemorySink,
    ghost no_input_fault: { input.faults.count ≡ 0 },
    ghost no_output_fault: { output.faults.count ≡ 0 },
    ghost none_taken: { output.bytes.items ≡ [] },
}

impl MemoryLink {
    /// A link of these two ends, which had no fault yet and took nothing.
    pub fn new(input: MemorySource, output: MemorySink) -> MemoryLink
        requires no_input_fault { input.faults.count ≡ 0 }
        requires no_output_fault { output.faults.count ≡ 0 }
        requires none_taken { output.bytes.items ≡ [] }
        ensures input { result.input ≡ input }
        ensures output { result.output ≡ output }
    {
        MemoryLink { input, output }
    }
}

/// Doors that tell their address and their links, and fail where they are asked to. Want of memory
/// for the address is a fault too.
#[derive(Drop)]
pub struct MemoryDoors {
    address: String,
    links: VecDeque<MemoryLink>,
    failing: Vec<usize>,
    calls: usize,
    faults: FaultCount,
}

impl MemoryDoors {
    /// The links are given in their order. The calls that fail, of `listen` and `accept` together,
    /// are numbered from 0; one that fails gives no link. The address is empty before `listen`.
    pub fn new(alloc: Global, links: Vec<MemoryLink>, failing: Vec<usize>) -> MemoryDoors
        ensures links { result.links.items ≡ links.items }
        ensures failing { result.failing ≡ failing }
        ensures calls { result.calls ≡ 0 }
        ensures faults { result.faults.count ≡ 0 }
    {
        MemoryDoors {
            address: String::new(alloc),
            links: VecDeque::from_vec(links),
            failing,
            calls: 0,
            faults: FaultCount::new(),
        }
    }
}

impl Doors for MemoryDoors {
    ghost use Rattle.std.specs.String.{string_bytes};

    type In = MemorySource;

    type Out = MemorySink;

    ghost listens_on = { λ doors. Some (string_bytes doors.address) };

    ghost links = { λ doors. Some (map (λ link. drop link.input.at link.input.bytes.items) doors.links.items) };

    ghost faults = { λ doors. doors.faults.count };

    ghost most_faults = { λ doors. doors.faults.within };

    fn listen(&mut self, address: &str) -> Result<(), Failed> {
        let call = self.calls;
        self.calls = self.calls.saturating_add(1);
        if self.failing.contains(&call) {
            return Err(self.faults.add());
        }
        self.address.clear();
        if self.address.push_str(address).is_err() {
            return Err(self.faults.add());
        }
        Ok(())
    }

    fn accept(&mut self) -> Result<(MemorySource, MemorySink), Failed> {
        let call = self.calls;
        self.calls = self.calls.saturating_add(1);
        if self.failing.contains(&call) && !self.links.is_empty() {
            return Err(self.faults.add());
        }
        match self.links.pop_front() {
            Some(link) => Ok((link.input, link.output)),
            None => Err(Failed),
        }
    }
}
