// A replay of standard input, block by block as reads give them. No line is written that is not whole.
use crate::fault::ReplayError;
use crate::gathering::Gathering;
use crate::limits::{BLOCK, CELLS, READS, TEXT, WORDS};
use crate::wait::Patient;
use std::io;
use std::io::{Input, Read, Write};
use std::time::Clock;

pub fn run(rt: &(impl Input + Print + Clock)) -> Result<(), ReplayError> {
    let mut words = [0u64; WORDS];
    let mut cells = [0u64; CELLS];
    let mut block = [0u8; BLOCK];
    let mut text = [0u8; TEXT];
    let mut input = Patient::new(rt, rt.reader());
    let mut output = Patient::new(rt, io::writer(rt));
    let mut lines = Gathering::new(&mut output, &mut words, &mut cells, &mut text);
    replay_input(&mut input, &mut block, &mut lines)
}

// The fuel does not last for READS reads, and the text has room for any block: so one of them is the last; were it not, that is said.
fn replay_input<I: Read, W: Write>(
    input: &mut I,
    block: &mut [u8],
    lines: &mut Gathering<W>,
) -> Result<(), ReplayError> {
    for _ in 0..READS {
        if is_last(input, block, lines)? {
            return lines.write_end();
        }
    }
    Err(ReplayError::Unfinished)
}

// The next block: what one read gives, nothing at the end of the trace. Lines that wait are written first, also where it could not be read.
fn is_last<I: Read, W: Write>(
    input: &mut I,
    block: &mut [u8],
    lines: &mut Gathering<W>,
) -> Result<bool, ReplayError> {
    match input.read(block) {
        Ok(0) => Ok(true),
        Ok(n) => {
            lines.list_bytes(&block[..n])?;
            Ok(lines.is_stopped())
        }
        Err(_) => {
            lines.write_lines()?;
            Err(ReplayError::Unread)
        }
    }
}
