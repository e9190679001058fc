//! What no clause says: the adapters of the system, once each, calls that are tried
//! again, and which calls of the ends in memory fail.

mod links;

use super::*;
use crate::fault_count::FaultCount;
use crate::system::{flush_out, read_from, write_to};
use std::io::{ErrorKind, Read, Write};
use std::test::Fail;
use std::{fs, io};

/// The first bytes of a book.
fn open_and_take<H: Shelf>(shelf: &mut H, name: &str, into: &mut [u8]) -> Result<usize, Failed> {
    shelf.open(name)?;
    shelf.take(into)
}

#[test]
fn streams_of_the_system(rt: HostRuntime) -> Result<(), Fail> {
    let mut into = [0; 8];
    assert!(rt; StdIn::new(rt.stdin()).take(&mut into).is_ok());
    let mut output = StdOut::new(rt.alloc(), rt.stdout())?;
    assert_eq!(rt; put_all(&mut output, b"to standard output\n"), Ok(()));
    assert_eq!(rt; output.flush(), Ok(()));
    let mut notes = StdErr::new(rt.stderr());
    assert_eq!(rt; put_all(&mut notes, b"to standard error\n"), Ok(()));
    assert_eq!(rt; notes.flush(), Ok(()));
    Ok(())
}

#[test]
fn files_of_the_system(rt: HostRuntime) -> Result<(), Fail> {
    let path = "pan_io-folder-test";
    fs::write(&rt, path, b"book")?;
    let mut folder = Folder::new(&rt);
    let mut into = [0; 8];
    assert_eq!(rt; open_and_take(&mut folder, path, &mut into), Ok(4));
    assert_eq!(rt; &into[..4], b"book".as_slice());
    fs::remove_file(&rt, path)?;
    assert_eq!(rt; open_and_take(&mut folder, path, &mut into), Err(Failed));
    // A folder opens, and its bytes can't be read.
    assert_eq!(rt; open_and_take(&mut folder, ".", &mut into), Err(Failed));
    Ok(())
}

/// Is interrupted at its first calls, and fails from the fourth on.
#[derive(Drop)]
struct Interrupted {
    calls: u8,
}

impl Interrupted {
    fn call(&mut self) -> io::Result<()> {
        self.calls = self.calls.saturating_add(1);
        match self.calls {
            1 | 2 => Err(io::Error::from(ErrorKind::Interrupted)),
            3 => Ok(()),
            _ => Err(io::Error::from(ErrorKind::BrokenPipe)),
        }
    }
}

impl Read for Interrupted {
    fn read(&mut self, _into: &mut [u8]) -> io::Result<usize> {
        self.call()?;
        Ok(0)
    }
}

impl Write for Interrupted {
    fn write(&mut self, piece: &[u8]) -> io::Result<usize> {
        self.call()?;
        Ok(piece.len())
    }

    fn flush(&mut self) -> io::Result<()> {
        self.call()
    }
}

#[test]
fn interrupted_calls_are_tried_again(rt: HostRuntime) -> Result<(), Fail> {
    let mut faults = FaultCount::new();
    let mut reader = Interrupted { calls: 0 };
    assert_eq!(rt; read_from(&mut reader, &mut [0; 4], &mut faults), Ok(0));
    assert_eq!(rt;
        read_from(&mut reader, &mut [0; 4], &mut faults),
        Err(Failed)
    );
    let mut writer = Interrupted { calls: 0 };
    assert_eq!(rt; write_to(&mut writer, b"abc", &mut faults), Ok(3));
    assert_eq!(rt; write_to(&mut writer, b"abc", &mut faults), Err(Failed));
    let mut writer = Interrupted { calls: 0 };
    assert_eq!(rt; flush_out(&mut writer, &mut faults), Ok(()));
    assert_eq!(rt; flush_out(&mut writer, &mut faults), Err(Failed));
    Ok(())
}

#[test]
fn sink_in_memory_fails_where_asked(rt: HostRuntime) -> Result<(), Fail> {
    let failing = vec![in rt.alloc(); 0, 2]?;
    let mut sink = MemorySink::new(rt.alloc(), 2, 3, failing);
    assert_eq!(rt; sink.put(b"abcd"), Err(Failed));
    assert_eq!(rt; sink.flush(), Ok(()));
    assert_eq!(rt; sink.flush(), Err(Failed));
    assert_eq!(rt; sink.put(b"abcd"), Ok(2));
    assert_eq!(rt; sink.put(b"cd"), Ok(1));
    // Its room is used up.
    assert_eq!(rt; sink.put(b"d"), Err(Failed));
    assert_eq!(rt; sink.bytes(), b"abc".as_slice());
    Ok(())
}

#[test]
fn shelf_in_memory_fails_where_asked(rt: HostRuntime) -> Result<(), Fail> {
    let name = String::from_str(rt.alloc(), "book")?;
    let bytes = vec![in rt.alloc(); 97, 98]?;
    let books = vec![in rt.alloc(); Book::new(name, bytes)]?;
    let mut shelf = MemoryShelf::new(books, vec![in rt.alloc(); 0, 2]?);
    let mut into = [0; 4];
    // It fails at `open`, then at `take`, then not, and a name that it hasn't isn't opened.
    assert_eq!(rt; open_and_take(&mut shelf, "book", &mut into), Err(Failed));
    assert_eq!(rt; open_and_take(&mut shelf, "book", &mut into), Err(Failed));
    assert_eq!(rt; open_and_take(&mut shelf, "book", &mut into), Ok(2));
    assert_eq!(rt; &into[..2], b"ab".as_slice());
    assert_eq!(rt; open_and_take(&mut shelf, "books", &mut into), Err(Failed));
    Ok(())
}

/// Reads a book of the bytes `abc`, on a shelf of which one call fails.
fn whole_book(
    rt: HostRuntime,
    name: &str,
    failing: usize,
    most: u8,
) -> Result<Result<Vec<u8>, Unread>, Fail> {
    let book = Book::new(
        String::from_str(rt.alloc(), "book")?,
        vec![in rt.alloc(); 97, 98, 99]?,
    );
    let failing = vec![in rt.alloc(); failing]?;
    let mut shelf = MemoryShelf::new(vec![in rt.alloc(); book]?, failing);
    Ok(read_book(rt.alloc(), &mut shelf, name, u64::from(most)))
}

#[test]
fn books_are_read_whole(rt: HostRuntime) -> Result<(), Fail> {
    let never = usize::MAX;
    let bytes = vec![in rt.alloc(); 97, 98, 99]?;
    assert_eq!(rt; whole_book(rt, "book", never, 4)?, Ok(bytes.clone()?));
    assert_eq!(rt; whole_book(rt, "book", never, 3)?, Ok(bytes));
    assert_eq!(rt; whole_book(rt, "book", never, 2)?, Err(Unread::TooLong));
    assert_eq!(rt; whole_book(rt, "none", never, 4)?, Err(Unread::Failed));
    // The opening, the first and the last part fail.
    for call in 0..3 {
        assert_eq!(rt; whole_book(rt, "book", call, 4)?, Err(Unread::Failed));
    }
    Ok(())
}

#[test]
fn sure_ends(rt: HostRuntime) -> Result<(), Fail> {
    let mut source = SureSource::new(vec![in rt.alloc(); 97, 98]?);
    let mut into = [0; 4];
    assert_eq!(rt; source.take(&mut into), Ok(2));
    assert_eq!(rt; &into[..2], b"ab".as_slice());
    assert_eq!(rt; source.take(&mut into), Ok(0));
    let mut sink = SureSink;
    assert_eq!(rt; put_all(&mut sink, b"ab"), Ok(()));
    assert_eq!(rt; sink.flush(), Ok(()));
    Ok(())
}
