// A run for a loop to carry round: what no record changes, and what a record may change. A whole `Run` that crosses from one record to the next costs a
// fifth more instructions (190 a record for 155, call-heavy), and so do the registers as a struct in `Moving` (187).
#![tactic(auto, unfolding(crate::specs::Packing::fixed_in, crate::specs::Packing::moving_in, crate::specs::Packing::state_again, crate::specs::Packing::run_again, crate::specs::Packing::ran_again, crate::specs::Packing::went_on_with, crate::specs::Packing::went_stopped))]

ghost use Rattle.std.specs.Prelude.{◌≡◌, ◌-◌};
ghost use Rattle.rules.specs.Answers.{refusal_number, shown_answer};
ghost use Rattle.replay.specs.Packing.{fixed_in, moving_in, state_again, run_again, ran_again, went_on_with, went_stopped, went_refused};

use crate::run::{Ran, Run};
use regs::Registers;
use rules::{Outcome, Refusal, State};
use stack::{answer_number, answer_offset};

#[derive(Clone, Copy)]
pub(crate) struct Fixed {
    pub depth: usize,
    pub height: usize,
    pub words: usize,
    pub cells: usize,
    pub fuel: u64,
}

#[derive(Clone, Copy)]
pub(crate) struct Moving {
    pub count: usize,
    pub len: usize,
    pub current: Option<u64>,
    pub ireg: u64,
    pub freg32: f32,
    pub freg64: f64,
    pub number: u64,
    pub spent: u64,
}

// After a record: the cost that the run stopped before, where it did, and what is answered.
// The answer is its number, as in `Ran`.
#[derive(Clone, Copy)]
pub struct Went {
    pub moving: Moving,
    pub stop: Option<u64>,
    pub answer: u64,
    pub offset: u64,
}

impl From<Run> for Fixed {
    ghost from_gives = { λ run f. f ≡ fixed_in run };

    fn from(run: Run) -> Fixed {
        let state = run.state;
        Fixed {
            depth: state.depth,
            height: state.height,
            words: state.words,
            cells: state.cells,
            fuel: run.fuel,
        }
    }
}

impl From<Run> for Moving {
    ghost from_gives = { λ run m. m ≡ moving_in run };

    fn from(run: Run) -> Moving {
        let state = run.state;
        let regs = state.regs;
        Moving {
            count: state.count,
            len: state.len,
            current: state.current,
            ireg: regs.ireg,
            freg32: regs.freg32,
            freg64: regs.freg64,
            number: run.number,
            spent: run.spent,
        }
    }
}

// Of two values, the fixed and the moving part: so these three are no From.
pub(crate) fn state_again(f: Fixed, m: Moving) -> State
    ensures { result ≡ state_again f m }
{
    let regs = Registers {
        ireg: m.ireg,
        freg32: m.freg32,
        freg64: m.freg64,
    };
    State {
        depth: f.depth,
        height: f.height,
        words: f.words,
        cells: f.cells,
        count: m.count,
        len: m.len,
        current: m.current,
        regs,
    }
}

// The run that has not stopped.
pub(crate) fn run_again(f: Fixed, m: Moving) -> Run
    ensures { result ≡ run_again f m }
{
    Run {
        state: state_again(f, m),
        number: m.number,
        fuel: f.fuel,
        spent: m.spent,
        stop: None,
    }
}

// The run after a record.
pub(crate) fn ran_again(f: Fixed, w: Went) -> Ran
    ensures { result ≡ ran_again f w }
{
    let m = w.moving;
    let run = Run {
        stop: w.stop,
        ..run_again(f, m)
    };
    Ran {
        run,
        answer: w.answer,
        offset: w.offset,
    }
}

// A request was done, with so much spent in all.
pub(crate) fn went_by(m: Moving, out: Outcome, spent: u64) -> Went
    ensures { result ≡ went_on_with m out.state spent (shown_answer out.answer).number (shown_answer out.answer).values.offset }
{
    let s = out.state;
    let answer = out.answer;
    went_on(m, s, spent, answer_number(answer), answer_offset(answer))
}

// A record was run, with so much spent in all. Records are numbered in a u64, which wraps.
fn went_on(m: Moving, s: State, spent: u64, answer: u64, offset: usize) -> Went
    ensures { result ≡ went_on_with m s spent answer offset }
{
    let regs = s.regs;
    let moving = Moving {
        count: s.count,
        len: s.len,
        current: s.current,
        ireg: regs.ireg,
        freg32: regs.freg32,
        freg64: regs.freg64,
        number: m.number.wrapping_add(1),
        spent,
    };
    Went {
        moving,
        stop: None,
        answer,
        offset: offset as u64,
    }
}

pub(crate) fn stopped_before(m: Moving, cost: u64) -> Went
    ensures { result ≡ went_stopped m cost }
{
    Went {
        moving: m,
        stop: Some(cost),
        answer: 0,
        offset: 0,
    }
}

// A refused record costs 1.
#[tactic(auto, unfolding(crate::specs::Packing::went_refused, choice::specs::Choose::choose))]
pub(crate) fn refused_at(f: Fixed, m: Moving, number: u64) -> Went
    ensures { result ≡ went_refused f m number }
{
    if f.fuel.saturating_sub(m.spent) < 1 {
        return stopped_before(m, 1);
    }
    went_on(m, state_again(f, m), m.spent + 1, number, 0)
}

pub(crate) fn refused_for(f: Fixed, m: Moving, why: Refusal) -> Went
    ensures { result ≡ went_refused f m (refusal_number why) }
{
    refused_at(f, m, u64::from(why))
}
