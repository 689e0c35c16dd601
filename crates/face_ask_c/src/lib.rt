// A module of the archive that a host in C or Rust links: a stack opened, and requests with the state by value. Each function is face_ask's, under its own
// name, with the clauses that it has there, and a body that is one call of it. include/cattlecleat.h says what each means.
#![tactic(auto)]

ghost use Rattle.std.specs.Prelude.{◌≡◌, length};
ghost use Rattle.rules.specs.declared.Asked.TheVariants.{SyncRegs};
ghost use Rattle.rules.specs.World.{world_of};
ghost use Rattle.rules.specs.Open.{stack_opened};
ghost use Rattle.rules.specs.Rules.{answered};
ghost use Rattle.replay.specs.Running.{answer_to};
ghost use Rattle.face.specs.States.{state_from};
ghost use Rattle.face.specs.Requests.{request_from};
ghost use Rattle.face_ask.specs.Told.{opening_told, told, after_told};
ghost use Rattle.face.specs.Parts.{part_told};

use cells::HostFrame;
use face::{CPart, CRequest, CState};
use face_ask::CAnswer;
use regs::Registers;

// Opens a stack: the height limit in bytes, the depth limit in frames. 14, with a state of zeros.
#[unsafe(no_mangle)]
pub extern "C" fn cattlecleat_open(
    bytes: usize,
    depth: usize,
    words: &[u64],
    cells: &[u64],
) -> CAnswer
    ensures { result ≡ opening_told (stack_opened bytes depth (length words.now) (length cells.now)) }
{
    face_ask::cattlecleat_open(bytes, depth, words, cells)
}

// Asks for one of the nine requests. 10 where the kind is none of them.
#[unsafe(no_mangle)]
pub extern "C" fn cattlecleat_ask(
    s: CState,
    words: &mut [u64],
    cells: &mut [u64],
    q: CRequest,
) -> CAnswer
    ensures { told result words.new cells.new
        ≡ after_told s (answer_to (world_of (state_from s) words.old cells.old) (request_from q)) }
{
    face_ask::cattlecleat_ask(s, words, cells, q)
}

// Stores all three registers, bit for bit. Only 9 refuses it.
#[unsafe(no_mangle)]
pub extern "C" fn cattlecleat_sync_registers(
    s: CState,
    words: &[u64],
    cells: &[u64],
    regs: Registers,
) -> CAnswer
    ensures { told result words.now cells.now
        ≡ after_told s (answered (world_of (state_from s) words.now cells.now) (SyncRegs regs)) }
{
    face_ask::cattlecleat_sync_registers(s, words, cells, regs)
}

// Where a host's part lies. 9, 11. An empty part is at 0.
#[unsafe(no_mangle)]
pub extern "C" fn cattlecleat_host_part(
    s: CState,
    words: &[u64],
    cells: &[u64],
    frame: HostFrame,
) -> CPart
    ensures { result ≡ part_told (world_of (state_from s) words.now cells.now) frame }
{
    face_ask::cattlecleat_host_part(s, words, cells, frame)
}
