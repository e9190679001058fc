//! Books at the limit of their length, and shelves that fail.

use crate::{Status, panto_run};
use pan_io::{Book, MemoryShelf, MemorySink, MemorySource};
use std::alloc::{AllocError, Global};
use std::test::Fail;
use std::thread::Threads;
use worker_gate::OpenGate;

/// The status of `check F` over a shelf whose book `F` has so many blanks, and of which one call fails, with what is written and noted.
fn checked<R: Threads + Sync>(
    rt: &R,
    alloc: Global,
    blanks: usize,
    failing: usize,
) -> Result<(Status, Vec<u8>, Vec<u8>), AllocError> {
    let words = vec![in alloc;
        String::from_str(alloc, "check")?,
        String::from_str(alloc, "F")?,
    ]?;
    let book = Book::new(String::from_str(alloc, "F")?, vec![in alloc; b' '; blanks]?);
    let mut shelf = MemoryShelf::new(vec![in alloc; book]?, vec![in alloc; failing]?);
    let mut input = MemorySource::new(Vec::new(alloc), Vec::new(alloc), Vec::new(alloc));
    let mut output = MemorySink::new(alloc, 0, 100, Vec::new(alloc));
    let mut notes = MemorySink::new(alloc, 0, 100, Vec::new(alloc));
    let status = panto_run(
        rt,
        alloc,
        &words,
        &mut shelf,
        &mut input,
        &mut output,
        &mut notes,
        &OpenGate,
    );
    let written = Vec::from_slice(alloc, output.bytes())?;
    Ok((status, written, Vec::from_slice(alloc, notes.bytes())?))
}

#[test]
fn longest_book_and_one_byte_more(rt: HostRuntime) -> Result<(), Fail> {
    let alloc = rt.alloc();
    let (status, written, notes) = checked(&rt, alloc, 4_194_304, usize::MAX)?;
    assert_eq!(rt; status.code(), 0);
    assert_eq!(rt; written.as_slice(), b"checked 0\n".as_slice());
    assert!(rt; notes.is_empty());
    let (status, written, notes) = checked(&rt, alloc, 4_194_305, usize::MAX)?;
    assert_eq!(rt; status.code(), 5);
    assert!(rt; written.is_empty());
    assert_eq!(rt;
        notes.as_slice(),
        b"panto: book: {\"error\":\"bookTooLong\"}\n".as_slice()
    );
    Ok(())
}

#[test]
fn shelf_fails_at_each_call(rt: HostRuntime) -> Result<(), Fail> {
    let alloc = rt.alloc();
    // The opening, the first part and the end of the book fail.
    for call in 0..3 {
        let (status, written, notes) = checked(&rt, alloc, 10, call)?;
        assert_eq!(rt; status.code(), 7);
        assert!(rt; written.is_empty());
        assert_eq!(rt; notes.as_slice(), b"panto: cannot open\n".as_slice());
    }
    Ok(())
}
