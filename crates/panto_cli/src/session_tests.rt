//! Worked sessions over books, line by line.

use crate::panto_run;
use pan_io::{Book, MemoryShelf, MemorySink, MemorySource};
use std::alloc::{AllocError, Global};
use std::thread::Threads;
use worker_gate::OpenGate;

mod branches;
mod moves;
mod restating;

/// Numbers with an order.
const ORDER: &[u8] =
    b"prim N : *; prim a : N(); prim b : N(); prim c : N(); prim le (x : N()) (y : N()) : *; prim trans (x : N()) (y : N()) (z : N()) (p : le(x, y)) (q : le(y, z)) : le(x, z); prim ac : le(a(), c()); prim cb : le(c(), b());";

/// Falsehood and negation.
const NEGATION: &[u8] = b"def falsum := (A : *) -> A : *; def not (A : *) := A -> falsum() : *;";

/// The output of `run` with this book on these lines, of which each call gives 64 bytes, and its status code.
fn replies<R: Threads + Sync>(
    rt: &R,
    alloc: Global,
    book: &[u8],
    lines: &[u8],
) -> Result<(Vec<u8>, u8), AllocError> {
    let words = vec![in alloc;
        String::from_str(alloc, "run")?,
        String::from_str(alloc, "--book")?,
        String::from_str(alloc, "F")?,
    ]?;
    let book = Book::new(String::from_str(alloc, "F")?, Vec::from_slice(alloc, book)?);
    let mut shelf = MemoryShelf::new(vec![in alloc; book]?, Vec::new(alloc));
    let bytes = Vec::from_slice(alloc, lines)?;
    let mut input = MemorySource::new(bytes, vec![in alloc; 64]?, Vec::new(alloc));
    let mut output = MemorySink::new(alloc, 3, 10_000, Vec::new(alloc));
    let mut notes = MemorySink::new(alloc, 0, 100, Vec::new(alloc));
    let status = panto_run(
        rt,
        alloc,
        &words,
        &mut shelf,
        &mut input,
        &mut output,
        &mut notes,
        &OpenGate,
    );
    let code = status.code();
    Ok((Vec::from_slice(alloc, output.bytes())?, code))
}
