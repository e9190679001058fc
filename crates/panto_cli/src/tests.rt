//! Worked runs, and faults at each call and byte.

ghost use Rattle.std.specs.Prelude.{None};
ghost use Rattle.std.proofs.Common.{rules};

mod demo;

use super::*;
use pan_io::{Book, Failed, MemoryShelf, MemorySink, MemorySource, Sink, Source};
use std::alloc::{AllocError, Global};
use std::cell::Cell;
use std::test::Fail;
use std::thread::Threads;
use worker_gate::OpenGate;

const ECHO: &str = "expr.echo {\"expr\":\"fun (A : *) => fun (x : A) => x\"}";

const ECHOED: &str =
    "{\"expr\":\"fun (%0 : *) => fun (%1 : %0) => %1\",\"seq\":0,\"type\":\"(%0 : *) -> %0 -> %0\"}\n";

const USAGE: &str =
    "usage: panto run [--book FILE] [--entries N] [--workers N]\n       panto serve --listen ADDRESS [--book FILE] [--entries N] [--workers N] [--sessions N]\n       panto check FILE\n       panto demo SEED COUNT\n";

const BOOK: &str =
    "prim N : *; prim a : N(); prim b : N(); prim c : N(); prim le (x : N()) (y : N()) : *; \
    prim trans (x : N()) (y : N()) (z : N()) (p : le(x, y)) (q : le(y, z)) : le(x, z); prim ac : le(a(), c()); prim cb : le(c(), b());";

/// What a run left.
#[derive(Drop)]
struct Ran {
    status: Status,
    output: Vec<u8>,
    notes: Vec<u8>,
}

/// The words of a line.
fn words_of(alloc: Global, line: &str) -> Result<Vec<String>, AllocError> {
    let mut words = Vec::new(alloc);
    for word in line.split(' ') {
        words.push(String::from_str(alloc, word)?)?;
    }
    Ok(words)
}

/// A run over a source, with a shelf whose book `F` has this text, and an output that takes so many bytes.
fn run_over<R: Threads + Sync>(
    rt: &R,
    alloc: Global,
    line: &str,
    book: &str,
    source: &mut MemorySource,
    room: usize,
) -> Result<Ran, AllocError> {
    let words = words_of(alloc, line)?;
    let text = Vec::from_slice(alloc, book.as_bytes())?;
    let book = Book::new(String::from_str(alloc, "F")?, text);
    let mut shelf = MemoryShelf::new(vec![in alloc; book]?, Vec::new(alloc));
    let mut output = MemorySink::new(alloc, 3, room, Vec::new(alloc));
    let mut notes = MemorySink::new(alloc, 0, 1000, Vec::new(alloc));
    let status = panto_run(
        rt,
        alloc,
        &words,
        &mut shelf,
        source,
        &mut output,
        &mut notes,
        &OpenGate,
    );
    Ok(Ran {
        status,
        output: Vec::from_slice(alloc, output.bytes())?,
        notes: Vec::from_slice(alloc, notes.bytes())?,
    })
}

/// A source of these bytes that gives so many a call, and fails at these calls.
fn source(
    alloc: Global,
    bytes: &[u8],
    piece: usize,
    failing: Vec<usize>,
) -> Result<MemorySource, AllocError> {
    let bytes = Vec::from_slice(alloc, bytes)?;
    Ok(MemorySource::new(bytes, vec![in alloc; piece]?, failing))
}

/// Whether a run that reads one byte a call leaves this output, status code and note.
fn shows<R: Threads + Sync>(
    rt: &R,
    alloc: Global,
    line: &str,
    book: &str,
    input: &[u8],
    wanted: (&str, u8, &str),
) -> Result<bool, AllocError> {
    let mut source = source(alloc, input, 1, Vec::new(alloc))?;
    let left = run_over(rt, alloc, line, book, &mut source, 10_000)?;
    Ok(
        left.output.as_slice() == wanted.0.as_bytes()
            && left.status.code() == wanted.1
            && left.notes.as_slice() == wanted.2.as_bytes(),
    )
}

#[test]
fn worked_sessions(rt: HostRuntime) -> Result<(), Fail> {
    let rows: [(&[u8], &str); 6] = [
        (ECHO.as_bytes(), ECHOED),
        (
            b"expr.echo {\"expr\":\"fun (A : *) => fun (x : A) => x\",\"fuel\":4}\n",
            "{\"error\":\"fuel\",\"seq\":0}\n",
        ),
        (
            b"expr.echo {\"expr\":\"(A -> \"}\n",
            "{\"at\":6,\"error\":\"syntax\",\"seq\":0}\n",
        ),
        (b"", ""),
        (b"   \n\r\n", ""),
        (
            b"\xff\x00\n \t\nexpr.echo {\"after\":1.5,\"expr\":\"*\"}\r\n",
            "{\"error\":\"command\",\"seq\":0}\n{\"error\":\"field\",\"field\":\"after\",\"seq\":1}\n",
        ),
    ];
    for (input, wanted) in rows {
        assert!(rt; shows(&rt, rt.alloc(), "run", "", input, (wanted, 0, ""))?);
    }
    Ok(())
}

#[test]
fn worked_books(rt: HostRuntime) -> Result<(), Fail> {
    let alloc = rt.alloc();
    let input =
        b"env.add {\"text\":\"prim app (F : N() -> *) (x : N()) : F x;\"}\nenv.catalog {\"envId\":0}\nenv.inspect {\"envId\":1,\"name\":\"app\"}\nenv.catalog {\"envId\":2}\n";
    let replies =
        "{\"envId\":1,\"seq\":0}\n{\"names\":[\"N\",\"a\",\"b\",\"c\",\"le\",\"trans\",\"ac\",\"cb\"],\"seq\":1}\n{\"kind\":\"prim\",\"params\":[{\"name\":\"F\",\"type\":\"N() -> *\"},{\"name\":\"x\",\"type\":\"N()\"}],\"seq\":2,\"type\":\"F x\"}\n{\"error\":\"unknownEnv\",\"id\":2,\"seq\":3}\n";
    assert!(rt; shows(&rt, alloc, "run --book F", BOOK, input, (replies, 0, ""))?);
    let two = "def falsum := (A : *) -> A : *; def not (A : *) := A -> falsum() : *;";
    assert!(rt; shows(&rt, alloc, "check F", two, b"", ("checked 2\n", 0, ""))?);
    let twice = "prim a : *; prim a : *;";
    let taken = "panto: book: {\"error\":\"nameTaken\",\"item\":1,\"name\":\"a\"}\n";
    assert!(rt; shows(&rt, alloc, "check F", twice, b"", ("", 5, taken))?);
    assert!(rt; shows(&rt, alloc, "run --book=F", twice, b"nope\n", ("", 5, taken))?);
    let missing = ("", 7, "panto: cannot open\n");
    assert!(rt; shows(&rt, alloc, "check G", "", b"", missing)?);
    assert!(rt; shows(&rt, alloc, "run --book G", "", b"nope\n", missing)?);
    Ok(())
}

#[test]
fn worked_words(rt: HostRuntime) -> Result<(), Fail> {
    let alloc = rt.alloc();
    let first = "{\"error\":\"command\",\"seq\":0}\n";
    let full = (first, 6, "panto: full 1\n");
    assert!(rt; shows(&rt, alloc, "run --entries 1", "", b"nope\nnope\n", full)?);
    let lines: [&str; 6] = [
        "run --entries 0",
        "run --workers 65",
        "serve",
        "check",
        "demo 7 10001",
        "",
    ];
    for line in lines {
        assert!(rt; shows(&rt, alloc, line, "", b"nope\n", ("", 2, USAGE))?);
    }
    Ok(())
}

#[test]
fn input_fails_at_each_call(rt: HostRuntime) -> Result<(), Fail> {
    let alloc = rt.alloc();
    // The first line ends in the first piece.
    let input = b"nope {}\nnope\n";
    let first = "{\"error\":\"command\",\"seq\":0}\n";
    let both = "{\"error\":\"command\",\"seq\":0}\n{\"error\":\"command\",\"seq\":1}\n";
    for (call, wanted) in [(0, ""), (1, first), (2, both)] {
        let mut source = source(alloc, input, 10, vec![in alloc; call]?)?;
        let left = run_over(&rt, alloc, "run", "", &mut source, 1000)?;
        assert_eq!(rt; left.output.as_slice(), wanted.as_bytes());
        assert_eq!(rt; left.notes.as_slice(), b"panto: read fault\n".as_slice());
        assert_eq!(rt; left.status.code(), 3);
    }
    Ok(())
}

#[test]
fn output_fails_at_each_byte(rt: HostRuntime) -> Result<(), Fail> {
    let alloc = rt.alloc();
    for room in 0..ECHOED.len() {
        let mut source = source(alloc, ECHO.as_bytes(), 7, Vec::new(alloc))?;
        let left = run_over(&rt, alloc, "run", "", &mut source, room)?;
        assert_eq!(rt; left.output.as_slice(), &ECHOED.as_bytes()[..room]);
        assert_eq!(rt; left.notes.as_slice(), b"panto: write fault\n".as_slice());
        assert_eq!(rt; left.status.code(), 4);
    }
    let mut none = source(alloc, b"", 1, Vec::new(alloc))?;
    let left = run_over(&rt, alloc, "check F", "prim a : *;", &mut none, 9)?;
    assert_eq!(rt; left.output.as_slice(), b"checked 1".as_slice());
    assert_eq!(rt; left.status.code(), 4);
    Ok(())
}

/// A line that echoes a star inside this many blanks, and another one.
fn wide_line(alloc: Global, blanks: usize) -> Result<Vec<u8>, AllocError> {
    let mut line = Vec::from_slice(alloc, b"expr.echo {\"expr\":\"")?;
    line.extend_from_slice(&vec![in alloc; b' '; blanks]?)?;
    line.extend_from_slice(b"*\"}\nnope\n")?;
    Ok(line)
}

#[test]
fn longest_line_and_one_byte_more(rt: HostRuntime) -> Result<(), Fail> {
    let alloc = rt.alloc();
    let rows: [(usize, &[u8]); 3] = [
        (
            65_514,
            b"{\"expr\":\"*\",\"seq\":0,\"type\":\"#\"}\n{\"error\":\"command\",\"seq\":1}\n",
        ),
        (
            65_515,
            b"{\"error\":\"lineTooLong\",\"length\":65537,\"seq\":0}\n{\"error\":\"command\",\"seq\":1}\n",
        ),
        (
            1_000_000,
            b"{\"error\":\"lineTooLong\",\"length\":1000022,\"seq\":0}\n{\"error\":\"command\",\"seq\":1}\n",
        ),
    ];
    for (blanks, wanted) in rows {
        let bytes = wide_line(alloc, blanks)?;
        let mut source = source(alloc, &bytes, 5000, Vec::new(alloc))?;
        let left = run_over(&rt, alloc, "run", "", &mut source, 1000)?;
        assert_eq!(rt; left.output.as_slice(), wanted);
        assert_eq!(rt; left.status.code(), 0);
    }
    Ok(())
}

/// An output that counts its flushes.
#[derive(Drop)]
struct Counting<'a> {
    flushes: &'a Cell<u64>,
}

impl<'a> Sink for Counting<'a> {
    ghost taken = { λ _. None };

    ghost faults = { λ _. 0 };

    ghost most_faults = { λ _. Prim.search rules };

    fn put(&mut self, piece: &[u8]) -> Result<usize, Failed> {
        Ok(piece.len())
    }

    fn flush(&mut self) -> Result<(), Failed> {
        self.flushes.set(self.flushes.get().saturating_add(1));
        Ok(())
    }
}

/// An input that gives a line a call, and ends where a line before has no flushed reply.
#[derive(Drop)]
struct Waiting<'a> {
    flushes: &'a Cell<u64>,
    given: u64,
}

impl<'a> Source for Waiting<'a> {
    ghost left = { λ _. None };

    ghost faults = { λ _. 0 };

    ghost most_faults = { λ _. Prim.search rules };

    fn take(&mut self, into: &mut [u8]) -> Result<usize, Failed> {
        if self.given == 5 || self.flushes.get() != self.given || into.len() < 2 {
            return Ok(0);
        }
        self.given = self.given.saturating_add(1);
        into[0] = b'x';
        into[1] = b'\n';
        Ok(2)
    }
}

#[test]
fn each_reply_is_flushed_before_the_next_read(rt: HostRuntime) -> Result<(), Fail> {
    let alloc = rt.alloc();
    let flushes = Cell::new(0);
    let words = words_of(alloc, "run")?;
    let mut shelf = MemoryShelf::new(Vec::new(alloc), Vec::new(alloc));
    let mut input = Waiting {
        flushes: &flushes,
        given: 0,
    };
    let mut output = Counting { flushes: &flushes };
    let mut notes = MemorySink::new(alloc, 0, 100, Vec::new(alloc));
    let status = panto_run(
        &rt,
        alloc,
        &words,
        &mut shelf,
        &mut input,
        &mut output,
        &mut notes,
        &OpenGate,
    );
    assert_eq!(rt; status.code(), 0);
    assert_eq!(rt; flushes.get(), 5);
    Ok(())
}
