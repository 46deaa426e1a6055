//! Why a statement is not whole. None of this is a refusal.
use std::alloc::AllocError;
use std::{fmt, io};

/// What the operating system would not do.
#[derive(Drop)]
pub enum Problem {
    /// The curve book file cannot be read.
    Curves(io::Error),
    /// Standard input cannot be read.
    Input(io::Error),
    /// Standard output cannot be written.
    Output(io::Error),
    /// There is not enough memory for the buffer.
    NoMemory,
}

impl From<AllocError> for Problem {
    fn from(_: AllocError) -> Problem {
        Problem::NoMemory
    }
}

impl fmt::Display for Problem {
    fn fmt<W: fmt::Write>(&self, f: &mut fmt::Formatter<W>) -> fmt::Result {
        match self {
            Problem::Curves(e) => write!(f, "curves.bin cannot be read: {e}"),
            Problem::Input(e) => write!(f, "standard input cannot be read: {e}"),
            Problem::Output(e) => write!(f, "standard output cannot be written: {e}"),
            Problem::NoMemory => write!(f, "not enough memory"),
        }
    }
}
