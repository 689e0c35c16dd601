// Lines that lay something down before the next: how buffers are told, a state, a word, a cell, a record or a byte of the trace, a tape.
use crate::fault::Fault;
use crate::floats::is_single;
use crate::run::Run;
use crate::tokens::{ends_within, has_length, numbers, place, token};
use crate::traces::{RECORD_BYTES, record_in};
use std::rt::Env;

impl<R: Env + Print> Run<'_, '_, '_, '_, R> {
    // Whether the buffers are told in full from now on.
    pub fn tell(&mut self, tokens: &[u64], is_full: bool) -> Result<(), Fault> {
        has_length(tokens, 1)?;
        self.is_full = is_full;
        self.lay()
    }

    pub fn lay_state(&mut self, tokens: &[u64]) -> Result<(), Fault> {
        has_length(tokens, 14)?;
        if !is_single(tokens, 10) {
            return Err(Fault::TooLarge);
        }
        ends_within(self.words.len(), place(tokens, 12))?;
        ends_within(self.cells.len(), place(tokens, 13))?;
        self.state = numbers(tokens, 1);
        self.words_lent = place(tokens, 12);
        self.cells_lent = place(tokens, 13);
        self.lay()
    }

    pub fn lay_word(&mut self, tokens: &[u64]) -> Result<(), Fault> {
        put(self.words, tokens)?;
        self.lay()
    }

    pub fn lay_cell(&mut self, tokens: &[u64]) -> Result<(), Fault> {
        put(self.cells, tokens)?;
        self.lay()
    }

    // The record of a number, by its forty bytes.
    pub fn lay_record(&mut self, tokens: &[u64]) -> Result<(), Fault> {
        has_length(tokens, 7)?;
        let Some(room) = self
            .trace
            .chunks_exact_mut(RECORD_BYTES)
            .nth(place(tokens, 1))
        else {
            return Err(Fault::Outside);
        };
        room.copy_from_slice(&record_in(tokens, 2));
        self.lay()
    }

    pub fn lay_byte(&mut self, tokens: &[u64]) -> Result<(), Fault> {
        has_length(tokens, 3)?;
        let byte = token(tokens, 2);
        let Some(room) = self.trace.get_mut(place(tokens, 1)) else {
            return Err(Fault::Outside);
        };
        if 255 < byte {
            return Err(Fault::TooLarge);
        }
        *room = byte as u8;
        self.lay()
    }

    // Any twelve numbers are a tape.
    pub fn lay_tape(&mut self, tokens: &[u64]) -> Result<(), Fault> {
        has_length(tokens, 13)?;
        self.tape = numbers(tokens, 1);
        self.lay()
    }

    // A line that compares nothing.
    fn lay(&mut self) -> Result<(), Fault> {
        self.counts.enter(0, 0);
        Ok(())
    }
}

fn put(buffer: &mut [u64], tokens: &[u64]) -> Result<(), Fault> {
    has_length(tokens, 3)?;
    match buffer.get_mut(place(tokens, 1)) {
        Some(room) => {
            *room = token(tokens, 2);
            Ok(())
        }
        None => Err(Fault::Outside),
    }
}
