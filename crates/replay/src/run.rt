// A replay in its course, by value, and one record of it that was decoded before.
ghost use Rattle.std.specs.Prelude.{◌≡◌};
ghost use Rattle.replay.specs.Packing.{running_again, went_shown};
ghost use Rattle.replay.specs.Running.{running_of, started_run, ran_by, shown_ran, ran_on, ran};

use crate::flat::{Fixed, Moving, Went, ran_again, refused_at};
use crate::turn::kind_turn;
use record::{BAD_RECORD, BadRecord};
use request::record_of;
use rules::{Request, State};

// A replay in its course: the stack's state, the number of the next record, the fuel given and what is spent of it; and the cost of the record
// that it stopped before, where it has stopped.
#[derive(Clone, Copy)]
pub struct Run {
    pub state: State,
    pub number: u64,
    pub fuel: u64,
    pub spent: u64,
    pub stop: Option<u64>,
}

// A run after a record, with what is answered; zeros where the record was not run.
// The answer is its number, which is all that a listing has of it (`shown_ran`).
#[derive(Clone, Copy)]
pub struct Ran {
    pub run: Run,
    pub answer: u64,
    pub offset: u64,
}

// A run that begins, with so much fuel.
pub fn start(state: State, fuel: u64) -> Run
    ensures { result ≡ started_run state fuel }
{
    Run {
        state,
        number: 0,
        fuel,
        spent: 0,
        stop: None,
    }
}

// Runs one record. After a stop nothing is run.
pub fn run_record(
    run: Run,
    words: &mut [u64],
    cells: &mut [u64],
    entry: Result<Request, BadRecord>,
) -> Ran
    ensures { shown_ran result words.new cells.new ≡ ran (running_of run words.old cells.old) entry }
{
    if run.stop.is_some() {
        return nothing_ran(run);
    }
    let f = Fixed::from(run);
    ran_again(f, run_entry(f, Moving::from(run), words, cells, entry))
}

pub(crate) fn nothing_ran(run: Run) -> Ran
    ensures { result ≡ ran_by run 0 0 }
{
    Ran {
        run,
        answer: 0,
        offset: 0,
    }
}

// A request goes by its record, so that there is one way through the kinds.
fn run_entry(
    f: Fixed,
    m: Moving,
    words: &mut [u64],
    cells: &mut [u64],
    entry: Result<Request, BadRecord>,
) -> Went
    ensures { went_shown f result words.new cells.new
        ≡ ran_on (running_again f m words.old cells.old) entry }
{
    match entry {
        Ok(q) => kind_turn(f, m, words, cells, record_of(q)),
        Err(BadRecord) => refused_at(f, m, BAD_RECORD),
    }
}
