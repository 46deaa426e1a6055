//! Why no price sheet is printed.
use fault_text::InWords;
use faults::Fault;
use std::alloc::{AllocError, AllocFailed};
use std::{fmt, io};

/// Why no price sheet is printed.
#[derive(Drop)]
pub enum Problem {
    /// A line of the input is no claim.
    Line(usize),
    /// There are more claims than requirements; this line has the first too many.
    TooMany(usize),
    /// The curve book or the claims as a whole are refused.
    Refused(Fault),
    /// The claim of a requirement, on this line, has a price or a target out of range.
    OutOfRange {
        line: usize,
        requirement: usize,
    },
    /// The claim of a requirement, on this line, is above what its curve allows.
    Above {
        line: usize,
        requirement: usize,
        claimed: u32,
        allowed: u32,
    },
    /// A file or a stream failed.
    Io(io::Error),
    /// There is not enough memory.
    NoMemory,
}

impl From<Fault> for Problem {
    fn from(fault: Fault) -> Problem {
        Problem::Refused(fault)
    }
}

impl From<io::Error> for Problem {
    fn from(e: io::Error) -> Problem {
        Problem::Io(e)
    }
}

impl From<AllocError> for Problem {
    fn from(_: AllocError) -> Problem {
        Problem::NoMemory
    }
}

impl<T: Drop> From<AllocFailed<T>> for Problem {
    fn from(_: AllocFailed<T>) -> Problem {
        Problem::NoMemory
    }
}

impl fmt::Display for Problem {
    fn fmt<W: fmt::Write>(&self, f: &mut fmt::Formatter<W>) -> fmt::Result {
        match self {
            Problem::Line(line) => {
                write!(
                    f,
                    "line {line}: expected three whole numbers: price, target, quantity"
                )
            }
            Problem::TooMany(line) => write!(f, "line {line}: there are only 15 requirements"),
            Problem::Refused(fault) => {
                let number = fault.number();
                let words = InWords(*fault);
                write!(f, "refused by {number}: {words}")
            }
            Problem::OutOfRange { line, requirement } => {
                let shadow = requirement.saturating_add(1);
                write!(
                    f,
                    "line {line}: SP{shadow} is refused by 35: its price is over 100000 or its target over 1000000"
                )
            }
            Problem::Above {
                line,
                requirement,
                claimed,
                allowed,
            } => {
                let shadow = requirement.saturating_add(1);
                write!(
                    f,
                    "line {line}: SP{shadow} is refused by 36: it claims {claimed} where its demand curve allows {allowed}"
                )
            }
            Problem::Io(e) => write!(f, "{e}"),
            Problem::NoMemory => write!(f, "out of memory"),
        }
    }
}
