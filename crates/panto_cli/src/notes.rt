//! How a run ended, with what its note shows, and the line that standard error gets.

ghost use Rattle.std.specs.Prelude.{◌≡◌, ◌≤◌, ◌++◌, codes, decimal, is_some};
ghost use Rattle.panto_cli.specs.Notes.{Noted};
ghost use Rattle.panto_cli.specs.Outcomes.{status_in, line_of, plain_line};

use crate::pieces::put_line;
use crate::status::Status;
use command_line::usage;
use itoa::Buffer;
use pan_io::{Sink, put_all};

/// How a run ended.
#[derive(Debug, Drop)]
pub enum Outcome {
    /// With a status whose note shows nothing more.
    Plain(Status),
    /// The journal holds so many entries, which are all that there was room for.
    Full(u32),
    /// The book is refused, with this JSON object.
    BookRefused(Vec<u8>),
    /// The doors failed.
    DoorFault,
}

impl Outcome {
    /// The status of the run.
    pub fn status(&self) -> Status
        ensures { result ≡ status_in self.now }
    {
        match self {
            Outcome::Plain(status) => *status,
            Outcome::Full(_) => Status::Full,
            Outcome::BookRefused(_) => Status::BookRefused,
            Outcome::DoorFault => Status::OpenFault,
        }
    }
}

/// The line of a status that shows nothing more.
fn plain_line(status: Status) -> &'static str
    ensures { result.now ≡ plain_line status }
{
    match status {
        Status::Usage => usage(),
        Status::ReadFault => "panto: read fault\n",
        Status::WriteFault => "panto: write fault\n",
        Status::OpenFault => "panto: cannot open\n",
        Status::Worn => "panto: worn\n",
        Status::Memory => "panto: out of memory\n",
        Status::Long => "panto: input too long\n",
        Status::Done | Status::BookRefused | Status::Full => "",
    }
}

/// Writes the line of a full journal. A fault of the notes changes nothing else.
fn write_full<N: Sink>(notes: &mut N, entries: u32)
    ensures noted { Noted (N.taken notes.old) (N.taken notes.new) (N.faults notes.old) (N.faults notes.new) (codes "panto: full " ++ (decimal entries ++ codes "\n")) }
    ensures tells { is_some (N.taken notes.new) ≡ is_some (N.taken notes.old) }
    ensures later { N.faults notes.old ≤ N.faults notes.new }
{
    let mut buffer = Buffer::new();
    let _written = put_line(
        notes,
        b"panto: full ",
        buffer.format(entries).as_bytes(),
        b"\n",
    );
}

/// Writes the line of a refused book. A fault of the notes changes nothing else.
fn write_refusal<N: Sink>(notes: &mut N, object: &[u8])
    ensures noted { Noted (N.taken notes.old) (N.taken notes.new) (N.faults notes.old) (N.faults notes.new) (codes "panto: book: " ++ (object.now ++ codes "\n")) }
    ensures tells { is_some (N.taken notes.new) ≡ is_some (N.taken notes.old) }
    ensures later { N.faults notes.old ≤ N.faults notes.new }
{
    let _written = put_line(notes, b"panto: book: ", object, b"\n");
}

/// Writes the line of a status whose note shows nothing more than the status itself. A fault of the
/// notes changes nothing else. It takes no memory.
pub fn write_note<N: Sink>(notes: &mut N, status: Status)
    ensures noted { Noted (N.taken notes.old) (N.taken notes.new) (N.faults notes.old) (N.faults notes.new) (plain_line status) }
    ensures tells { is_some (N.taken notes.new) ≡ is_some (N.taken notes.old) }
    ensures later { N.faults notes.old ≤ N.faults notes.new }
{
    let _written = put_all(notes, plain_line(status).as_bytes());
}

/// Writes the line of doors that failed. A fault of the notes changes nothing else.
fn write_door_fault<N: Sink>(notes: &mut N)
    ensures noted { Noted (N.taken notes.old) (N.taken notes.new) (N.faults notes.old) (N.faults notes.new) (codes "panto: door fault\n") }
    ensures tells { is_some (N.taken notes.new) ≡ is_some (N.taken notes.old) }
    ensures later { N.faults notes.old ≤ N.faults notes.new }
{
    let _written = put_all(notes, b"panto: door fault\n");
}

/// Writes the line of a run's end. A fault of the notes changes nothing else. It takes no memory.
pub fn write_outcome<N: Sink>(notes: &mut N, outcome: &Outcome)
    ensures noted { Noted (N.taken notes.old) (N.taken notes.new) (N.faults notes.old) (N.faults notes.new) (line_of outcome.now) }
    ensures tells { is_some (N.taken notes.new) ≡ is_some (N.taken notes.old) }
    ensures later { N.faults notes.old ≤ N.faults notes.new }
{
    match outcome {
        Outcome::Plain(status) => write_note(notes, *status),
        Outcome::Full(entries) => write_full(notes, *entries),
        Outcome::BookRefused(object) => write_refusal(notes, object),
        Outcome::DoorFault => write_door_fault(notes),
    }
}
