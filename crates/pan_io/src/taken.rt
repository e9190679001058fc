//! What a reader of lines answers.

/// What came.
#[derive(Debug, Clone, Copy, PartialEq, Eq, Drop)]
pub enum Taken {
    /// A line of at most 65,536 bytes, which the reader shows.
    Line,
    /// A line of this many bytes, more than 65,536. They were read and dropped.
    TooLong(u64),
    /// The end of the input, with no byte since the last line end.
    End,
    /// The source failed.
    ReadFault,
    /// This many bytes were used, all that a session may use, and the source gave a further one.
    Long(u64),
}

/// Whether a reader of lines reads on, or what stopped it.
#[derive(Debug, Clone, Copy, PartialEq, Eq, Drop)]
pub enum Stop {
    /// It reads on.
    Open,
    /// The input ended.
    Ended,
    /// The source failed.
    Faulted,
    /// The input is longer than a session may use.
    Exceeded,
}
