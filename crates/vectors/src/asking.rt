// Lines that ask something of a stack: the answer, the state after it and both buffers are held to what the line expects.
use crate::states::{registers_of, state_of, state_told};
use crate::told::{answer_told, part_told};
use cells::HostFrame;
use face::{CPart, CRequest};
use face_ask::{
    CAnswer, cattlecleat_ask, cattlecleat_host_part, cattlecleat_open, cattlecleat_sync_registers,
};
use face_leaves::{cattlecleat_read_record, cattlecleat_write_record};
use regs::Registers;
use std::rt::Env;
use vector_text::fault::{Fault, LineError};
use vector_text::floats::is_single;
use vector_text::run::Run;
use vector_text::tokens::{count, ends_within, fit_counts, numbers, place, token};
use vector_text::traces::{RECORD_BYTES, record_in};

// How many words an opening refills; of the cells it is all.
const REFILLED: usize = 256;

const ANSWER: [&str; 11] = [
    "number", "offset", "ip", "instance", "start", "end", "params", "results", "ireg", "f32", "f64",
];

// A request by its ten numbers, from a place on: five counts of 16 bits, and five numbers.
pub fn request_in(tokens: &[u64], kind: u64, from: usize) -> CRequest {
    let [callerflag, caller, callee, instanceflag, instance] = numbers::<5>(
        tokens,
        from.wrapping_add(5),
    );
    CRequest {
        kind,
        head: count(tokens, from),
        params: count(tokens, from.wrapping_add(1)),
        locals: count(tokens, from.wrapping_add(2)),
        slots: count(tokens, from.wrapping_add(3)),
        results: count(tokens, from.wrapping_add(4)),
        callerflag,
        caller,
        callee,
        instanceflag,
        instance,
    }
}

// A request by its kind goes by the writer and the reader of records.
pub fn asked_by_kind<R: Env + Print>(
    run: &mut Run<R>,
    tokens: &[u64],
    kind: u64,
) -> Result<(), LineError> {
    fit_counts(tokens, 1, 5)?;
    let mut bytes = [0u8; RECORD_BYTES];
    cattlecleat_write_record(&mut bytes, 0, request_in(tokens, kind, 1));
    asked(run, tokens, 10, cattlecleat_read_record(&bytes, 0).request)
}

pub fn asked_in_full<R: Env + Print>(run: &mut Run<R>, tokens: &[u64]) -> Result<(), LineError> {
    fit_counts(tokens, 2, 5)?;
    asked(run, tokens, 11, request_in(tokens, token(tokens, 1), 2))
}

// A record by its bytes. One that reads badly has a request of no kind: the answer is 10.
pub fn asked_in_record<R: Env + Print>(run: &mut Run<R>, tokens: &[u64]) -> Result<(), LineError> {
    let bytes = record_in(tokens, 1);
    asked(run, tokens, 5, cattlecleat_read_record(&bytes, 0).request)
}

fn asked<R: Env + Print>(
    run: &mut Run<R>,
    tokens: &[u64],
    inputs: usize,
    q: CRequest,
) -> Result<(), LineError> {
    let a = answer_to(run, q);
    run.hold_all(
        tokens,
        inputs,
        &ANSWER,
        &answer_told(a),
        state_told(a.state),
    )
}

// The two parts are taken here, and in each function like it: one that hands out both at once has no proof yet.
fn answer_to<R>(run: &mut Run<R>, q: CRequest) -> CAnswer {
    let state = state_of(run.state);
    let words_lent = run.words_lent;
    let cells_lent = run.cells_lent;
    let words = &mut *run.words;
    let cells = &mut *run.cells;
    let n = words_lent.min(words.len());
    let m = cells_lent.min(cells.len());
    cattlecleat_ask(state, &mut words[..n], &mut cells[..m], q)
}

// Both buffers are refilled first: word i is 1000 and i, cell i is 2000 and i. The tape is one of zeros from then on.
pub fn opened<R: Env + Print>(run: &mut Run<R>, tokens: &[u64]) -> Result<(), LineError> {
    let words_lent = place(tokens, 3);
    let cells_lent = place(tokens, 4);
    ends_within(run.words.len(), words_lent)?;
    ends_within(run.cells.len(), cells_lent)?;
    refill(run.words, REFILLED, 1000);
    refill(run.cells, usize::MAX, 2000);
    run.words_lent = words_lent;
    run.cells_lent = cells_lent;
    run.tape = [0; 12];
    let a = opening(run, place(tokens, 1), place(tokens, 2));
    run.hold_all(tokens, 4, &ANSWER, &answer_told(a), state_told(a.state))
}

fn refill(buffer: &mut [u64], most: usize, from: u64) {
    for (i, room) in buffer.iter_mut().take(most).enumerate() {
        *room = from.wrapping_add(i as u64);
    }
}

fn opening<R>(run: &Run<R>, bytes: usize, depth: usize) -> CAnswer {
    let n = run.words_lent.min(run.words.len());
    let m = run.cells_lent.min(run.cells.len());
    cattlecleat_open(bytes, depth, &run.words[..n], &run.cells[..m])
}

pub fn synced<R: Env + Print>(run: &mut Run<R>, tokens: &[u64]) -> Result<(), LineError> {
    if !is_single(tokens, 2) {
        return Err(LineError::Fault(Fault::TooLarge));
    }
    let regs = registers_of(token(tokens, 1), token(tokens, 2), token(tokens, 3));
    let a = syncing(run, regs);
    run.hold_all(tokens, 3, &ANSWER, &answer_told(a), state_told(a.state))
}

fn syncing<R>(run: &Run<R>, regs: Registers) -> CAnswer {
    let state = state_of(run.state);
    let n = run.words_lent.min(run.words.len());
    let m = run.cells_lent.min(run.cells.len());
    cattlecleat_sync_registers(state, &run.words[..n], &run.cells[..m], regs)
}

// The state is not in the answer: it is as it was.
pub fn lent<R: Env + Print>(run: &mut Run<R>, tokens: &[u64]) -> Result<(), LineError> {
    fit_counts(tokens, 3, 2)?;
    let frame = HostFrame {
        start: place(tokens, 1),
        end: place(tokens, 2),
        params: count(tokens, 3),
        results: count(tokens, 4),
    };
    let part = part_told(part_of(run, frame));
    let names = ["number", "offset", "params", "results"];
    run.hold_all(tokens, 4, &names, &part, run.state)
}

fn part_of<R>(run: &Run<R>, frame: HostFrame) -> CPart {
    let state = state_of(run.state);
    let n = run.words_lent.min(run.words.len());
    let m = run.cells_lent.min(run.cells.len());
    cattlecleat_host_part(state, &run.words[..n], &run.cells[..m], frame)
}
