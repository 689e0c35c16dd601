// What keeps a line from being run: a fault of its own, or output that cannot be written.
use std::{fmt, io};

#[derive(Clone, Copy)]
pub enum Fault {
    BadToken,
    TooMany,
    TooLarge,
    NoSuchWord,
    WrongCount,
    Outside,
    Unended,
}

impl fmt::Display for Fault {
    fn fmt<W: fmt::Write>(&self, f: &mut fmt::Formatter<W>) -> fmt::Result {
        f.pad(match self {
            Fault::BadToken => "a bad byte, word or number",
            Fault::TooMany => "too many numbers for a line",
            Fault::TooLarge => "a number that is too large",
            Fault::NoSuchWord => "no such word",
            Fault::WrongCount => "too few numbers, or too many",
            Fault::Outside => "a place outside the buffer",
            Fault::Unended => "the last line does not end",
        })
    }
}

#[derive(Drop)]
pub enum LineError {
    Fault(Fault),
    Io(io::Error),
}

impl From<Fault> for LineError {
    fn from(fault: Fault) -> LineError {
        LineError::Fault(fault)
    }
}

impl From<io::Error> for LineError {
    fn from(e: io::Error) -> LineError {
        LineError::Io(e)
    }
}
