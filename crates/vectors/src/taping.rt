// Lines on a trace that comes in blocks: the tape of the file, with the state as its run's, is fed a part of the trace, or told the end.
use crate::states::{state_of, state_told};
use face_replay::{CFed, CRun, CTape, cattlecleat_feed, cattlecleat_finish};
use std::rt::Env;
use vector_text::fault::LineError;
use vector_text::run::Run;
use vector_text::tokens::{ends_within, place};
use vector_text::traces::{record_in, words_in};

// Where the five words of the kept bytes begin among the numbers of a tape.
const KEPT: usize = 7;

pub fn fed<R: Env + Print>(run: &mut Run<R>, tokens: &[u64]) -> Result<(), LineError> {
    let from = place(tokens, 1);
    let to = place(tokens, 2);
    ends_within(run.trace.len(), to)?;
    ends_within(to, from)?;
    let done = feeding(run, from, to);
    hold_tape(run, tokens, 2, &[done.number], done.tape)
}

fn feeding<R>(run: &mut Run<R>, from: usize, to: usize) -> CFed {
    let came = tape_of(run.state, run.tape);
    let words_lent = run.words_lent;
    let cells_lent = run.cells_lent;
    let words = &mut *run.words;
    let cells = &mut *run.cells;
    let trace = &mut *run.trace;
    let n = words_lent.min(words.len());
    let m = cells_lent.min(cells.len());
    let end = to.min(trace.len());
    let block = &trace[from.min(end)..end];
    cattlecleat_feed(came, &mut words[..n], &mut cells[..m], block)
}

// An end has no number.
pub fn finished<R: Env + Print>(run: &mut Run<R>, tokens: &[u64]) -> Result<(), LineError> {
    let after = finishing(run);
    hold_tape(run, tokens, 0, &[], after)
}

fn finishing<R>(run: &mut Run<R>) -> CTape {
    let came = tape_of(run.state, run.tape);
    let words_lent = run.words_lent;
    let cells_lent = run.cells_lent;
    let words = &mut *run.words;
    let cells = &mut *run.cells;
    let n = words_lent.min(words.len());
    let m = cells_lent.min(cells.len());
    cattlecleat_finish(came, &mut words[..n], &mut cells[..m])
}

fn hold_tape<R: Env + Print>(
    run: &mut Run<R>,
    tokens: &[u64],
    inputs: usize,
    answer: &[u64],
    after: CTape,
) -> Result<(), LineError> {
    let replayed = after.run;
    run.hold_taped(
        tokens,
        inputs,
        answer,
        tape_told(after),
        state_told(replayed.state),
    )
}

fn tape_of(state: [u64; 11], t: [u64; 12]) -> CTape {
    let [number, fuel, spent, stopflag, cost, held, endflag, ..] = t;
    CTape {
        run: CRun {
            state: state_of(state),
            number,
            fuel,
            spent,
            stopflag,
            cost,
        },
        kept: record_in(&t, KEPT),
        held: held as usize,
        endflag,
    }
}

fn tape_told(t: CTape) -> [u64; 12] {
    let run = t.run;
    let [a, b, c, d, e] = words_in::<5>(&t.kept);
    [
        run.number,
        run.fuel,
        run.spent,
        run.stopflag,
        run.cost,
        t.held as u64,
        t.endflag,
        a,
        b,
        c,
        d,
        e,
    ]
}
