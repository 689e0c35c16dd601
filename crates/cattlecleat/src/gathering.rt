// The lines of block after block, gathered in one buffer of text until those of the next have no room.
ghost use Rattle.std.specs.Prelude.{◌≤◌};

use crate::fault::ReplayError;
use crate::limits::{DEPTH, FUEL, HEIGHT, LAST_LINES};
use crate::say;
use listing::{LinesError, list_end, list_feed, list_finish};
use replay::start;
use stack::open;
use std::io::Write;
use tape::{Tape, begin};

// A replay under way, in lent buffers: the first `used` bytes of `text` are lines that wait to be written.
#[derive(Drop)]
pub struct Gathering<'a, W> {
    output: &'a mut W,
    tape: Tape,
    words: &'a mut [u64],
    cells: &'a mut [u64],
    text: &'a mut [u8],
    used: usize,
}

impl<'a, W: Write> Gathering<'a, W> {
    pub fn new(
        output: &'a mut W,
        words: &'a mut [u64],
        cells: &'a mut [u64],
        text: &'a mut [u8],
    ) -> Gathering<'a, W> {
        let opened = open(HEIGHT, DEPTH, words, cells);
        let tape = begin(start(opened.state, FUEL));
        Gathering {
            output,
            tape,
            words,
            cells,
            text,
            used: 0,
        }
    }

    // A run that has stopped goes on no more.
    pub fn is_stopped(&self) -> bool {
        self.tape.run.stop.is_some()
    }

    // A block. Where its lines have no room, those that wait are written first: then there is room for those of any block.
    pub fn list_bytes(&mut self, block: &[u8]) -> Result<(), ReplayError> {
        // For want of room alone, as no end was told.
        if self.list_behind(block).is_err() {
            self.write_lines()?;
            self.list_behind(block)
                .map_err(|_| ReplayError::Unfinished)?;
        }
        Ok(())
    }

    // The lines of a block behind those that wait.
    fn list_behind(&mut self, block: &[u8]) -> Result<(), LinesError> {
        let room = lines_room(self.text.len());
        let from = self.used.min(room);
        let more = list_feed(
            &mut self.tape,
            self.words,
            self.cells,
            block,
            &mut self.text[from..room],
        )?;
        self.used = place_behind(from, more, room);
        Ok(())
    }

    // The end of the trace, or a stop: the last lines behind those that wait, and all of them in one write.
    pub fn write_end(&mut self) -> Result<(), ReplayError> {
        let end = self.text.len();
        let from = self.used.min(end);
        let fed = list_finish(
            &mut self.tape,
            self.words,
            self.cells,
            &mut self.text[from..],
        );
        let at = place_behind(from, fed.unwrap_or(0), end);
        let more = list_end(self.tape.run, &mut self.text[at..]);
        self.used = place_behind(at, more, end);
        self.write_lines()
    }

    // The lines that wait: then none do.
    pub fn write_lines(&mut self) -> Result<(), ReplayError> {
        let used = self.used;
        let text = &mut *self.text;
        let output = &mut *self.output;
        let written = say::listing(output, text, used);
        written.map_err(|_| ReplayError::Unwritten)?;
        self.used = 0;
        Ok(())
    }
}

// So much of a text is for the lines of records: behind it is room for the last lines.
fn lines_room(text: usize) -> usize
    ensures { result ≤ text }
{
    text.saturating_sub(LAST_LINES)
}

// The place behind so many bytes more, at most `end`.
fn place_behind(from: usize, more: usize, end: usize) -> usize
    requires { from ≤ end }
    ensures { result ≤ end }
{
    from + more.min(end - from)
}
