// Opening, the nine requests by one door, and register sync.
ghost use Rattle.std.specs.Prelude.{◌≡◌, length};
ghost use Rattle.rules.specs.declared.Asked.TheVariants.{SyncRegs};
ghost use Rattle.rules.specs.World.{world_of};
ghost use Rattle.rules.specs.Open.{stack_opened};
ghost use Rattle.rules.specs.Rules.{answered};
ghost use Rattle.replay.specs.Running.{answer_to};
ghost use Rattle.face.specs.States.{state_from};
ghost use Rattle.face.specs.Requests.{request_from};
ghost use Rattle.face_ask.specs.Told.{opening_told, told, after_told};

use crate::answers::{CAnswer, host_told, outcome_told};
use ask::ask;
use face::{CRequest, CState};
use record::{BAD_RECORD, BadRecord};
use regs::Registers;
use rules::{Request, State};
use stack::{no_host, open, sync_regs};

// Opens a stack: the height limit in bytes, the depth limit in frames. 14, with a state of zeros.
pub fn cattlecleat_open(bytes: usize, depth: usize, words: &[u64], cells: &[u64]) -> CAnswer
    ensures { result ≡ opening_told (stack_opened bytes depth (length words.now) (length cells.now)) }
{
    let out = open(bytes, depth, words, cells);
    let s = out.state;
    outcome_told(out, CState::from(s))
}

// Asks for one of the nine requests. 10 where the kind is none of them.
pub fn cattlecleat_ask(s: CState, words: &mut [u64], cells: &mut [u64], q: CRequest) -> CAnswer
    ensures { told result words.new cells.new
        ≡ after_told s (answer_to (world_of (state_from s) words.old cells.old) (request_from q)) }
{
    match Request::try_from(q) {
        Ok(asked) => outcome_told(ask(State::from(s), words, cells, asked), s),
        Err(BadRecord) => host_told(BAD_RECORD, no_host(), s),
    }
}

// Stores all three registers, bit for bit. Only 9 refuses it.
pub fn cattlecleat_sync_registers(
    s: CState,
    words: &[u64],
    cells: &[u64],
    regs: Registers,
) -> CAnswer
    ensures { told result words.now cells.now
        ≡ after_told s (answered (world_of (state_from s) words.now cells.now) (SyncRegs regs)) }
{
    outcome_told(sync_regs(State::from(s), words, cells, regs), s)
}
