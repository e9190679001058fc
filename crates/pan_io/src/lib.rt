//! The outside as traits: where bytes and links come from and go to, with counts of faults. A reader
//! of lines stands over any source, and `put_all` writes a whole piece into any sink.
//!
//! A source, a sink, a shelf or doors may tell the bytes that they have left or took, as those in
//! memory do. Then the contracts speak of the bytes; the adapters of the system tell nothing.
#![tactic(auto)]

mod chunk;
mod cut;
mod doors;
mod draft;
mod fault_count;
mod folder;
mod input;
mod laws;
mod lines;
mod memory_doors;
mod memory_shelf;
mod memory_sink;
mod memory_source;
mod put;
mod shelf;
mod sink;
mod source;
mod standard;
mod sure;
mod system;
mod taken;
mod tcp;
mod whole;
mod worked;

pub use doors::Doors;
pub use draft::MAX_LINE;
pub use folder::Folder;
pub use input::MAX_BYTES;
pub use laws::lines_behind_whole;
pub use lines::Lines;
pub use memory_doors::{MemoryDoors, MemoryLink};
pub use memory_shelf::{Book, MemoryShelf};
pub use memory_sink::MemorySink;
pub use memory_source::MemorySource;
pub use put::put_all;
pub use shelf::Shelf;
pub use sink::Sink;
pub use source::{Failed, Source};
pub use standard::{StdErr, StdIn, StdOut};
pub use sure::{SureSink, SureSource};
pub use taken::{Stop, Taken};
pub use tcp::{TcpDoors, TcpIn, TcpOut};
pub use whole::{Unread, read_book};
pub use worked::worked_lines;

#[cfg(test)]
mod tests;
