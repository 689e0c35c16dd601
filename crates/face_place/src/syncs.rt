// Sync, restore, set, reset and register sync in place. The first three leave the state as it is, and are lent it to read.
ghost use Rattle.std.specs.Prelude.{◌≡◌};
ghost use Rattle.rules.specs.declared.Request.TheVariants.{Sync, Restore, Reset, Set};
ghost use Rattle.rules.specs.declared.Asked.TheVariants.{Traced, SyncRegs};
ghost use Rattle.face_place.specs.Held.{registers_held};
ghost use Rattle.face_place.specs.Placed.{number_told, offset_told, frame_told, answered_in, placed, same_after, emptied_after};
ghost use Rattle.face_place.specs.Placed.{stored_after, placed_after};

use crate::answers::{CFrame, COffset, frame_told, offset_told};
use crate::state::{empty_state, put_registers, state_held, whole_held};
use stack::{answer_number, judge_sync_regs, reset, restore_frame, set, sync_ip};

// Stores an ip in the newest frame; the offset is its start. 9, 4.
#[tactic(auto, using(crate::proofs::Placing::is_placed))]
pub fn cattlecleat_sync_ip(state: &[u64; 8], words: &mut [u64], cells: &[u64], ip: u64) -> COffset
    ensures { placed result state.now words.new cells.now
        ≡ placed_after offset_told same_after state.now
        (answered_in state.now words.old cells.now (Traced (Sync ip))) }
{
    let out = sync_ip(state_held(state), words, cells, ip);
    let answer = out.answer;
    offset_told(answer)
}

// Reads back the newest frame's ip, its start (the offset) and the current instance; the registers are in the state. 9, 4, 8.
#[tactic(auto, using(crate::proofs::Placing::is_placed))]
pub fn cattlecleat_restore_frame(state: &[u64; 8], words: &[u64], cells: &[u64]) -> CFrame
    ensures { placed result state.now words.now cells.now
        ≡ placed_after frame_told same_after state.now
        (answered_in state.now words.now cells.now (Traced Restore)) }
{
    let out = restore_frame(state_held(state), words, cells);
    let answer = out.answer;
    frame_told(answer)
}

// Writes one cell at the newest frame's start plus `head`; the offset is its index. 9, 4, 7.
#[tactic(auto, using(crate::proofs::Placing::is_placed))]
pub fn cattlecleat_set(
    state: &[u64; 8],
    words: &[u64],
    cells: &mut [u64],
    head: u16,
    cell: u64,
) -> COffset
    ensures { placed result state.now words.now cells.new
        ≡ placed_after offset_told same_after state.now
        (answered_in state.now words.now cells.old (Traced (Set head cell))) }
{
    let out = set(state_held(state), words, cells, head, cell);
    let answer = out.answer;
    offset_told(answer)
}

// Empties frames, `len`, instance and registers. Only 9 refuses it.
#[tactic(auto, using(crate::proofs::Placing::is_placed))]
pub fn cattlecleat_reset(state: &mut [u64; 11], words: &[u64], cells: &[u64]) -> u64
    ensures { placed result state.new words.now cells.now
        ≡ placed_after number_told emptied_after state.old
        (answered_in state.old words.now cells.now (Traced Reset)) }
{
    let out = reset(whole_held(state), words, cells);
    let answer = out.answer;
    empty_state(state, answer);
    answer_number(answer)
}

// Stores all three registers, bit for bit. Only 9 refuses it.
pub fn cattlecleat_sync_registers_in_place(
    state: &mut [u64; 11],
    words: &[u64],
    cells: &[u64],
    regs: &[u64; 3],
) -> u64
    ensures { placed result state.new words.now cells.now
        ≡ placed_after number_told (stored_after regs.now) state.old
        (answered_in state.old words.now cells.now (SyncRegs (registers_held regs.now 0))) }
{
    match judge_sync_regs(whole_held(state), words, cells) {
        Err(why) => u64::from(why),
        Ok(_) => {
            put_registers(state, regs);
            0
        }
    }
}
