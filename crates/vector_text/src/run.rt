// A run of a file in its course, and what each line does to it: where it prints, the buffers that are lent, the state, how much of the buffers is the
// stack's, the tape, whether the buffers are told in full, and what was counted.
use crate::counts::Counts;
use crate::fault::Fault;
use crate::say;
use std::io;
use std::rt::Env;

// State and tape have their numbers in the order in which a line tells them; the run of the tape has this state.
#[derive(Drop)]
pub struct Run<'r, 'w, 'c, 't, R> {
    pub rt: &'r R,
    pub words: &'w mut [u64],
    pub cells: &'c mut [u64],
    pub trace: &'t mut [u8],
    pub state: [u64; 11],
    pub words_lent: usize,
    pub cells_lent: usize,
    pub tape: [u64; 12],
    pub is_full: bool,
    pub counts: Counts,
}

impl<'r, 'w, 'c, 't, R: Env + Print> Run<'r, 'w, 'c, 't, R> {
    pub fn of_file(
        rt: &'r R,
        file: usize,
        words: &'w mut [u64],
        cells: &'c mut [u64],
        trace: &'t mut [u8],
    ) -> Run<'r, 'w, 'c, 't, R> {
        Run {
            rt,
            words,
            cells,
            trace,
            state: [0; 11],
            words_lent: 0,
            cells_lent: 0,
            tape: [0; 12],
            is_full: true,
            counts: Counts::none_of(file),
        }
    }

    // At the next line.
    pub fn go_on(&mut self) {
        self.counts.lines = self.counts.lines.wrapping_add(1);
    }

    // A line that cannot be read, or is of no kind, or has too few numbers or too many.
    pub fn say_fault(&mut self, fault: Fault) -> io::Result<()> {
        let counts = self.counts;
        self.counts.bad = counts.bad.wrapping_add(1);
        say::fault(self.rt, counts, fault)
    }
}
