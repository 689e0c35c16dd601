// Lines of output: a word and a number, or a text.
use done::{DoneReason, DoneSlot, NothingToTake};
use record::{BAD_RECORD, BadRecord};
use std::io;

pub fn number(rt: &impl Print, word: &str, n: u64) -> io::Result<()> {
    println!(rt; "{word} {n}")
}

// The first bytes of a text, cut here, as README's lines say the count alone.
pub fn text(rt: &impl Print, bytes: &[u8], used: usize) -> io::Result<()> {
    rt.write_all(&bytes[..used.min(bytes.len())])
}

pub fn taken(rt: &impl Print, answer: Result<DoneReason, NothingToTake>) -> io::Result<()> {
    match answer {
        Ok(reason) => returned(rt, reason),
        Err(refusal) => number(rt, "nothing taken", u64::from(refusal)),
    }
}

// No Display: the types are of other crates. So `written`.
fn returned(rt: &impl Print, reason: DoneReason) -> io::Result<()> {
    match reason {
        DoneReason::Returned(offset) => number(rt, "taken: returned", offset),
        DoneReason::HostError => number(rt, "taken: host error", 0),
        DoneReason::OutOfFuel(amount) => number(rt, "taken: out of fuel", amount),
        DoneReason::Error => number(rt, "taken: error", 0),
    }
}

pub fn slot(rt: &impl Print, after: DoneSlot) -> io::Result<()> {
    number(rt, "reasons left", after.reason.is_some() as u64)
}

pub fn written(rt: &impl Print, answer: Result<(), BadRecord>) -> io::Result<()> {
    match answer {
        Ok(()) => number(rt, "written", 0),
        Err(BadRecord) => number(rt, "written", BAD_RECORD),
    }
}
