// A module of the archive that a host in C or Rust links: whole traces replayed, and traces in blocks. Each function is face_replay's, under its own
// name, with the clauses that it has there, and a body that is one call of it. include/cattlecleat.h says what each means.
#![tactic(auto)]

ghost use Rattle.std.specs.Prelude.{◌≡◌};
ghost use Rattle.replay.specs.Running.{replayed};
ghost use Rattle.face_replay.specs.Runs.{run_told, running_back, running_from};
ghost use Rattle.tape.specs.Tapes.{feeding, end_told};
ghost use Rattle.face_replay.specs.Tapes.{tape_told, fed_told, taping_from, taping_back, feeding_back};

use face_replay::{CFed, CRun, CTape};

// Replays a whole trace, or up to where the fuel does not cover a record. What it leaves as it was comes back number for number.
#[unsafe(no_mangle)]
pub extern "C" fn cattlecleat_replay(
    run: CRun,
    words: &mut [u64],
    cells: &mut [u64],
    trace: &[u8],
) -> CRun
    ensures { run_told result words.new cells.new
        ≡ running_back run (replayed (running_from run words.old cells.old) trace.now) }
{
    face_replay::cattlecleat_replay(run, words, cells, trace)
}

// The next block of a trace. 22 for a nonempty one after an end without a stop.
#[unsafe(no_mangle)]
pub extern "C" fn cattlecleat_feed(
    t: CTape,
    words: &mut [u64],
    cells: &mut [u64],
    block: &[u8],
) -> CFed
    ensures { fed_told result words.new cells.new
        ≡ feeding_back t (feeding (taping_from t words.old cells.old) block.now) }
{
    face_replay::cattlecleat_feed(t, words, cells, block)
}

// The trace has ended.
#[unsafe(no_mangle)]
pub extern "C" fn cattlecleat_finish(t: CTape, words: &mut [u64], cells: &mut [u64]) -> CTape
    ensures { tape_told result words.new cells.new
        ≡ taping_back t (end_told (taping_from t words.old cells.old)) }
{
    face_replay::cattlecleat_finish(t, words, cells)
}
