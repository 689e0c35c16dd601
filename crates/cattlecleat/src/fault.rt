// What keeps a listing from being whole: a block that cannot be read, lines that cannot be written, or a run that did not end.
use std::fmt;

#[derive(Clone, Copy, Debug, PartialEq, Eq)]
pub enum ReplayError {
    Unread,
    Unwritten,
    Unfinished,
}

impl fmt::Display for ReplayError {
    fn fmt<W: fmt::Write>(&self, f: &mut fmt::Formatter<W>) -> fmt::Result {
        f.write_str(match self {
            ReplayError::Unread => "standard input cannot be read",
            ReplayError::Unwritten => "standard output cannot be written",
            ReplayError::Unfinished => "more blocks were run than the fuel lasts for",
        })
    }
}
