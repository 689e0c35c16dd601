// Whole traces replayed: a replay in its course as numbers, read and handed back.
ghost use Rattle.std.specs.Prelude.{◌≡◌};
ghost use Rattle.replay.specs.Running.{replayed};
ghost use Rattle.face_replay.specs.Runs.{run_from, run_back, run_told, running_back, running_from};

use crate::flagged::{Flagged, flagged_back, state_back};
use face::CState;
use regs::InRegister;
use replay::{Run, replay};
use rules::State;

// A replay in its course.
#[repr(C)]
#[derive(Clone, Copy)]
pub struct CRun {
    pub state: CState,
    pub number: u64,
    pub fuel: u64,
    pub spent: u64,
    pub stopflag: u64,
    pub cost: u64,
}

// Replays a whole trace, or up to where the fuel does not cover a record. What it leaves as it was comes back number for number.
pub fn cattlecleat_replay(run: CRun, words: &mut [u64], cells: &mut [u64], trace: &[u8]) -> CRun
    ensures { run_told result words.new cells.new
        ≡ running_back run (replayed (running_from run words.old cells.old) trace.now) }
{
    run_back(run, replay(run_from(run), words, cells, trace))
}

// No From, which would be public: of the registers in a run no promise settles a NaN's payload (docs/OPEN-PROMISES.md).
pub(crate) fn run_from(c: CRun) -> Run
    ensures { result ≡ run_from c }
{
    let held = c.state;
    Run {
        state: State::from(held),
        number: c.number,
        fuel: c.fuel,
        spent: c.spent,
        stop: bool::from_register(c.stopflag).then_some(c.cost),
    }
}

pub(crate) fn run_back(came: CRun, run: Run) -> CRun
    ensures { result ≡ run_back came run }
{
    let held = came.state;
    let state = run.state;
    let stop = run.stop;
    let stopped = flagged_back(
        Flagged {
            flag: came.stopflag,
            number: came.cost,
        },
        stop,
    );
    CRun {
        state: state_back(held, state),
        number: run.number,
        fuel: run.fuel,
        spent: run.spent,
        stopflag: stopped.flag,
        cost: stopped.number,
    }
}
