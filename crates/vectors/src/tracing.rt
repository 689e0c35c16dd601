// Lines on the bytes of the trace: replayed over a stack, or a record read and written.
use crate::asking::request_in;
use crate::states::{state_of, state_told};
use crate::told::{read_told, run_told};
use face_leaves::{cattlecleat_read_record, cattlecleat_write_record};
use face_replay::{CRun, cattlecleat_replay};
use std::rt::Env;
use vector_text::fault::{Fault, LineError};
use vector_text::run::Run;
use vector_text::tokens::{ends_within, fit_counts, numbers, place, token};
use vector_text::traces::words_in;

const RUN: [&str; 5] = ["number", "fuel", "spent", "stopped", "cost"];

const READ: [&str; 12] = [
    "number", "kind", "head", "params", "locals", "slots", "results", "flag 1", "caller", "callee",
    "flag 2", "instance",
];

const WRITTEN: [&str; 7] = [
    "number", "byte 0", "byte 8", "byte 16", "byte 24", "byte 32", "byte 40",
];

// A part of the trace, so many times one after another.
pub fn replayed<R: Env + Print>(run: &mut Run<R>, tokens: &[u64]) -> Result<(), LineError> {
    let from = place(tokens, 6);
    let to = place(tokens, 7);
    ends_within(run.trace.len(), to)?;
    ends_within(to, from)?;
    let [number, fuel, spent, stopflag, cost] = numbers::<5>(tokens, 1);
    let before = CRun {
        state: state_of(run.state),
        number,
        fuel,
        spent,
        stopflag,
        cost,
    };
    let after = replaying(run, before, from, to, token(tokens, 8));
    run.hold_all(tokens, 8, &RUN, &run_told(after), state_told(after.state))
}

fn replaying<R>(run: &mut Run<R>, before: CRun, from: usize, to: usize, times: u64) -> CRun {
    let words_lent = run.words_lent;
    let cells_lent = run.cells_lent;
    let words = &mut *run.words;
    let cells = &mut *run.cells;
    let trace = &mut *run.trace;
    let n = words_lent.min(words.len());
    let m = cells_lent.min(cells.len());
    let end = to.min(trace.len());
    let part = &trace[from.min(end)..end];
    let mut so_far = before;
    for _ in 0..times {
        so_far = cattlecleat_replay(so_far, &mut words[..n], &mut cells[..m], part);
    }
    so_far
}

pub fn read<R: Env + Print>(run: &mut Run<R>, tokens: &[u64]) -> Result<(), LineError> {
    let Some(bytes) = run.trace.get(..place(tokens, 1)) else {
        return Err(LineError::Fault(Fault::Outside));
    };
    let found = cattlecleat_read_record(bytes, place(tokens, 2));
    run.hold(tokens, 2, &READ, &read_told(found))
}

// The first 48 bytes after it are told.
pub fn written<R: Env + Print>(run: &mut Run<R>, tokens: &[u64]) -> Result<(), LineError> {
    let len = place(tokens, 1);
    ends_within(run.trace.len(), len)?;
    fit_counts(tokens, 4, 5)?;
    let q = request_in(tokens, token(tokens, 3), 4);
    let n = len.min(run.trace.len());
    let number = cattlecleat_write_record(&mut run.trace[..n], place(tokens, 2), q);
    let [a, b, c, d, e, f] = words_in::<6>(run.trace);
    run.hold(tokens, 13, &WRITTEN, &[number, a, b, c, d, e, f])
}
