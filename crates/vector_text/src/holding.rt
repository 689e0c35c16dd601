// What came of a line, held to what it expects: the answer, then the state, then both buffers.
use crate::counts::Counts;
use crate::fault::{Fault, LineError};
use crate::run::Run;
use crate::say;
use crate::say::Names;
use crate::sums::sum_of;
use crate::tokens::{BAR, least, token};
use std::io;
use std::rt::Env;

// Sums are over so many words at the most.
const SUMMED: usize = 256;

const STATE: [&str; 11] = [
    "D", "M", "words", "L", "count", "len", "flag", "current", "ireg", "f32", "f64",
];

const TAPE: [&str; 12] = [
    "number", "fuel", "spent", "stopped", "cost", "held", "end", "byte 0", "byte 8", "byte 16",
    "byte 24", "byte 32",
];

// The numbers that a line expects, the next place among them, and what was compared so far.
#[derive(Drop)]
struct Mark<'r, 't, R> {
    rt: &'r R,
    counts: Counts,
    tokens: &'t [u64],
    at: usize,
    compared: u64,
    differ: u64,
}

impl<R: Env + Print> Mark<'_, '_, R> {
    fn hold(&mut self, names: Names, found: &[u64]) -> io::Result<()> {
        for (i, number) in found.iter().enumerate() {
            self.hold_one(names, i, *number)?;
        }
        Ok(())
    }

    fn hold_bar(&mut self, name: &str) -> io::Result<()> {
        self.hold_one(Names::Each(&[name]), 0, BAR)
    }

    // A bar has to stand where one is found, and is no number that was compared.
    fn hold_one(&mut self, names: Names, i: usize, found: u64) -> io::Result<()> {
        let expected = token(self.tokens, self.at);
        self.at = self.at.wrapping_add(1);
        if expected == found {
            if expected != BAR {
                self.compared = self.compared.wrapping_add(1);
            }
            return Ok(());
        }
        self.compared = self.compared.wrapping_add(1);
        self.differ = self.differ.wrapping_add(1);
        say::difference(self.rt, self.counts, names, i, expected, found)
    }
}

impl<'r, R: Env + Print> Run<'r, '_, '_, '_, R> {
    // An answer alone, behind so many numbers that were given.
    pub fn hold(
        &mut self,
        tokens: &[u64],
        inputs: usize,
        names: &[&str],
        answer: &[u64],
    ) -> Result<(), LineError> {
        let mut mark = self.mark(tokens, inputs);
        mark.hold_bar("bar 1")?;
        mark.hold(Names::Each(names), answer)?;
        self.end(mark)
    }

    // An answer, the state after it, and the buffers.
    pub fn hold_all(
        &mut self,
        tokens: &[u64],
        inputs: usize,
        names: &[&str],
        answer: &[u64],
        state: [u64; 11],
    ) -> Result<(), LineError> {
        let mut mark = self.mark(tokens, inputs);
        mark.hold_bar("bar 1")?;
        mark.hold(Names::Each(names), answer)?;
        self.hold_state(mark, state)
    }

    // The same with a tape behind the answer. The tape is the next line's.
    pub fn hold_taped(
        &mut self,
        tokens: &[u64],
        inputs: usize,
        answer: &[u64],
        tape: [u64; 12],
        state: [u64; 11],
    ) -> Result<(), LineError> {
        let mut mark = self.mark(tokens, inputs);
        mark.hold_bar("bar 1")?;
        mark.hold(Names::Each(&["answer"]), answer)?;
        mark.hold(Names::Each(&TAPE), &tape)?;
        self.tape = tape;
        self.hold_state(mark, state)
    }

    fn mark<'t>(&self, tokens: &'t [u64], inputs: usize) -> Mark<'r, 't, R> {
        Mark {
            rt: self.rt,
            counts: self.counts,
            tokens,
            at: inputs.wrapping_add(1),
            compared: 0,
            differ: 0,
        }
    }

    // The state, between bars, and both buffers. The state is the next line's.
    fn hold_state(&mut self, mark: Mark<R>, state: [u64; 11]) -> Result<(), LineError> {
        let mut mark = mark;
        mark.hold_bar("bar 2")?;
        mark.hold(Names::Each(&STATE), &state)?;
        mark.hold_bar("bar 3")?;
        self.state = state;
        self.hold_words(&mut mark)?;
        mark.hold_bar("bar 4")?;
        self.hold_cells(&mut mark)?;
        self.end(mark)
    }

    // Every lent word, or a sum.
    fn hold_words(&self, mark: &mut Mark<R>) -> io::Result<()> {
        let n = least(self.words_lent, self.words.len());
        if self.is_full {
            return mark.hold(Names::List("word"), &self.words[..n]);
        }
        let sum = sum_of(&self.words[..n.min(SUMMED)]);
        mark.hold(Names::Each(&["words"]), &[sum])
    }

    // Every lent cell, or a sum.
    fn hold_cells(&self, mark: &mut Mark<R>) -> io::Result<()> {
        let n = least(self.cells_lent, self.cells.len());
        if self.is_full {
            return mark.hold(Names::List("cell"), &self.cells[..n]);
        }
        let sum = sum_of(&self.cells[..n]);
        mark.hold(Names::Each(&["cells"]), &[sum])
    }

    // What was compared counts, also where the line is too short or too long.
    fn end(&mut self, mark: Mark<R>) -> Result<(), LineError> {
        self.counts.enter(mark.compared, mark.differ);
        if mark.at != mark.tokens.len() {
            return Err(LineError::Fault(Fault::WrongCount));
        }
        Ok(())
    }
}
