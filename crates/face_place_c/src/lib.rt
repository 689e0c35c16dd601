// A module of the archive that a host in C or Rust links: requests with the state in place, as eight words, or eleven with its registers. Each function is
// face_place's, under its own name, with the clauses that it has there, and a body that is one call of it. include/cattlecleat.h says what each means.
#![tactic(auto)]

ghost use Rattle.std.specs.Prelude.{◌≡◌};
ghost use Rattle.rules.specs.declared.Request.TheVariants.{Push, Pop, Replace, Host, ReturnHost, Sync, Restore, Reset, Set};
ghost use Rattle.rules.specs.declared.Asked.TheVariants.{Traced, SyncRegs};
ghost use Rattle.face_place.specs.Args.{push_held, replace_held, host_held, return_host_held, host_frame_held};
ghost use Rattle.face_place.specs.Placed.{offset_told, frame_told, answered_in, placed, moved_after, placed_after, hosted_told, returned_told, world_held, len_after, number_told, same_after, emptied_after, stored_after};
ghost use Rattle.regs.specs.Registers.{zero_registers};
ghost use Rattle.face.specs.Parts.{part_told};
ghost use Rattle.face_place.specs.Held.{registers_held};

use face::CPart;
use face_place::{CFrame, CHosted, COffset, CReturned};

// Calls: the offset is the new frame's start. 9, 2 (depth), 4 or 6, 5, 2, 3.
#[unsafe(no_mangle)]
pub extern "C" fn cattlecleat_push_frame(
    state: &mut [u64; 8],
    words: &mut [u64],
    cells: &mut [u64],
    q: &[u64; 6],
) -> COffset
    ensures { placed result state.new words.new cells.new
        ≡ placed_after offset_told moved_after state.old
        (answered_in state.old words.old cells.old (Traced (Push (push_held q.now)))) }
{
    face_place::cattlecleat_push_frame(state, words, cells, q)
}

// Returns: 1 where the last frame is gone; else the ip and start of the frame below, and the debt or else the instance given. 9, 4.
#[unsafe(no_mangle)]
pub extern "C" fn cattlecleat_pop_frame(
    state: &mut [u64; 8],
    words: &[u64],
    cells: &[u64],
    instance: u64,
) -> CFrame
    ensures { placed result state.new words.now cells.now
        ≡ placed_after frame_told moved_after state.old
        (answered_in state.old words.now cells.now (Traced (Pop instance))) }
{
    face_place::cattlecleat_pop_frame(state, words, cells, instance)
}

// Calls in place of the newest frame: the offset is its start. 9, 4, 5, 2, 3, 7.
#[unsafe(no_mangle)]
pub extern "C" fn cattlecleat_replace_frame(
    state: &mut [u64; 8],
    words: &mut [u64],
    cells: &mut [u64],
    q: &[u64; 4],
) -> COffset
    ensures { placed result state.new words.new cells.new
        ≡ placed_after offset_told moved_after state.old
        (answered_in state.old words.old cells.old (Traced (Replace (replace_held q.now)))) }
{
    face_place::cattlecleat_replace_frame(state, words, cells, q)
}

// Prepares a host's frame: the offset is the newest frame's start. 9, 4, 2, 3.
#[unsafe(no_mangle)]
pub extern "C" fn cattlecleat_prepare_host_frame(
    state: &mut [u64; 8],
    words: &mut [u64],
    cells: &mut [u64],
    q: &[u64; 3],
) -> CHosted
    ensures { placed result state.new words.new cells.new
        ≡ placed_after hosted_told len_after state.old
        (answered_in state.old words.old cells.old (Traced (Host (host_held q.now)))) }
{
    face_place::cattlecleat_prepare_host_frame(state, words, cells, q)
}

// Returns through a host's frame at the start of the frame that goes: the offset is the caller's start, or 0 with answer 1. 9, 4, 7, 2, 3.
#[unsafe(no_mangle)]
pub extern "C" fn cattlecleat_return_prepare_host_frame(
    state: &mut [u64; 8],
    words: &[u64],
    cells: &mut [u64],
    q: &[u64; 2],
) -> CReturned
    ensures { placed result state.new words.now cells.new
        ≡ placed_after returned_told moved_after state.old
        (answered_in state.old words.now cells.old (Traced (ReturnHost (return_host_held q.now)))) }
{
    face_place::cattlecleat_return_prepare_host_frame(state, words, cells, q)
}

// Where a host's part lies. 9, 11. An empty part is at 0.
#[unsafe(no_mangle)]
pub extern "C" fn cattlecleat_host_part_in_place(
    state: &[u64; 8],
    words: &[u64],
    cells: &[u64],
    frame: &[u64; 3],
) -> CPart
    ensures { result
        ≡ part_told (world_held state.now zero_registers words.now cells.now) (host_frame_held frame.now) }
{
    face_place::cattlecleat_host_part_in_place(state, words, cells, frame)
}

// Stores an ip in the newest frame; the offset is its start. 9, 4.
#[unsafe(no_mangle)]
pub extern "C" fn cattlecleat_sync_ip(
    state: &[u64; 8],
    words: &mut [u64],
    cells: &[u64],
    ip: u64,
) -> COffset
    ensures { placed result state.now words.new cells.now
        ≡ placed_after offset_told same_after state.now
        (answered_in state.now words.old cells.now (Traced (Sync ip))) }
{
    face_place::cattlecleat_sync_ip(state, words, cells, ip)
}

// Reads back the newest frame's ip, its start (the offset) and the current instance; the registers are in the state. 9, 4, 8.
#[unsafe(no_mangle)]
pub extern "C" fn cattlecleat_restore_frame(
    state: &[u64; 8],
    words: &[u64],
    cells: &[u64],
) -> CFrame
    ensures { placed result state.now words.now cells.now
        ≡ placed_after frame_told same_after state.now
        (answered_in state.now words.now cells.now (Traced Restore)) }
{
    face_place::cattlecleat_restore_frame(state, words, cells)
}

// Writes one cell at the newest frame's start plus `head`; the offset is its index. 9, 4, 7.
#[unsafe(no_mangle)]
pub extern "C" fn cattlecleat_set(
    state: &[u64; 8],
    words: &[u64],
    cells: &mut [u64],
    head: u16,
    cell: u64,
) -> COffset
    ensures { placed result state.now words.now cells.new
        ≡ placed_after offset_told same_after state.now
        (answered_in state.now words.now cells.old (Traced (Set head cell))) }
{
    face_place::cattlecleat_set(state, words, cells, head, cell)
}

// Empties frames, `len`, instance and registers. Only 9 refuses it.
#[unsafe(no_mangle)]
pub extern "C" fn cattlecleat_reset(state: &mut [u64; 11], words: &[u64], cells: &[u64]) -> u64
    ensures { placed result state.new words.now cells.now
        ≡ placed_after number_told emptied_after state.old
        (answered_in state.old words.now cells.now (Traced Reset)) }
{
    face_place::cattlecleat_reset(state, words, cells)
}

// Stores all three registers, bit for bit. Only 9 refuses it.
#[unsafe(no_mangle)]
pub extern "C" fn cattlecleat_sync_registers_in_place(
    state: &mut [u64; 11],
    words: &[u64],
    cells: &[u64],
    regs: &[u64; 3],
) -> u64
    ensures { placed result state.new words.now cells.now
        ≡ placed_after number_told (stored_after regs.now) state.old
        (answered_in state.old words.now cells.now (SyncRegs (registers_held regs.now 0))) }
{
    face_place::cattlecleat_sync_registers_in_place(state, words, cells, regs)
}
