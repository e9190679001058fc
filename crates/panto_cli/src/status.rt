//! How a run of the program ended.

ghost use Rattle.std.specs.Prelude.{◌≡◌};
ghost use Rattle.panto_cli.specs.Status.{code_of, status_of};

use session_server::End;

/// How a run of the program ended.
#[derive(Debug, Clone, Copy, PartialEq, Eq, Drop)]
pub enum Status {
    /// The input of each session was read to its end and everything to be printed was written.
    Done,
    /// The words are of no form that the call serves.
    Usage,
    /// The input failed, or that of the link that names the status.
    ReadFault,
    /// The output failed, or that of the link that names the status.
    WriteFault,
    /// The book has more than 4,194,304 bytes, or it is refused.
    BookRefused,
    /// The journal holds all its entries, and a further request was to be entered.
    Full,
    /// The shelf failed, or the doors.
    OpenFault,
    /// All 4,611,686,018,427,387,904 turns of the turn lock were drawn, and a session asked for a further one. `panto_run` never
    /// answers so.
    Worn,
    /// Memory was wanted.
    Memory,
    /// The input has more than 1,099,511,627,776 bytes, or that of the link that names the status.
    Long,
}

impl Status {
    /// The code that the program ends with.
    pub fn code(&self) -> u8
        ensures { result ≡ code_of self.now }
    {
        match self {
            Status::Done => 0,
            Status::Usage => 2,
            Status::ReadFault => 3,
            Status::WriteFault => 4,
            Status::BookRefused => 5,
            Status::Full => 6,
            Status::OpenFault => 7,
            Status::Worn => 8,
            Status::Memory => 9,
            Status::Long => 10,
        }
    }
}

/// The status of a run whose session ended so.
pub fn status_of(end: End) -> Status
    ensures { result ≡ status_of end }
{
    match end {
        End::Done => Status::Done,
        End::ReadFault => Status::ReadFault,
        End::WriteFault => Status::WriteFault,
        End::Full { .. } => Status::Full,
        End::Worn { .. } => Status::Worn,
        End::Long { .. } => Status::Long,
        End::Memory => Status::Memory,
    }
}
