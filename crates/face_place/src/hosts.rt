// Hosts in place: a host's frame over the newest frame, or in its place, and the host's part of the cells.
ghost use Rattle.std.specs.Prelude.{◌≡◌};
ghost use Rattle.regs.specs.Registers.{zero_registers};
ghost use Rattle.rules.specs.declared.Request.TheVariants.{Host, ReturnHost};
ghost use Rattle.rules.specs.declared.Asked.TheVariants.{Traced};
ghost use Rattle.face.specs.Parts.{part_told};
ghost use Rattle.face_place.specs.Args.{host_held, return_host_held, host_frame_held};
ghost use Rattle.face_place.specs.Placed.{hosted_told, returned_told, world_held, answered_in, placed, moved_after, len_after, placed_after};

use crate::answers::{CHosted, CReturned, hosted_told, returned_told};
use crate::requests::{host_frame_held, host_held, return_host_held};
use crate::state::{move_len, move_state, state_held};
use face::{CPart, part_told};
use stack_hosts::{prepare_host_frame, return_prepare_host_frame};

// Prepares a host's frame: the offset is the newest frame's start. 9, 4, 2, 3.
#[tactic(auto, using(crate::proofs::Placing::is_placed))]
pub fn cattlecleat_prepare_host_frame(
    state: &mut [u64; 8],
    words: &mut [u64],
    cells: &mut [u64],
    q: &[u64; 3],
) -> CHosted
    ensures { placed result state.new words.new cells.new
        ≡ placed_after hosted_told len_after state.old
        (answered_in state.old words.old cells.old (Traced (Host (host_held q.now)))) }
{
    let out = prepare_host_frame(state_held(state), words, cells, host_held(q));
    let answer = out.answer;
    let after = out.state;
    move_len(state, answer, after);
    hosted_told(answer)
}

// Returns through a host's frame at the start of the frame that goes: the offset is the caller's start, or 0 with answer 1. 9, 4, 7, 2, 3.
#[tactic(auto, using(crate::proofs::Placing::is_placed))]
pub fn cattlecleat_return_prepare_host_frame(
    state: &mut [u64; 8],
    words: &[u64],
    cells: &mut [u64],
    q: &[u64; 2],
) -> CReturned
    ensures { placed result state.new words.now cells.new
        ≡ placed_after returned_told moved_after state.old
        (answered_in state.old words.now cells.old (Traced (ReturnHost (return_host_held q.now)))) }
{
    let out = return_prepare_host_frame(state_held(state), words, cells, return_host_held(q));
    let answer = out.answer;
    let after = out.state;
    move_state(state, answer, after);
    returned_told(answer)
}

// Where a host's part lies. 9, 11. An empty part is at 0.
#[tactic(auto, using(face::proofs::Lent::part_told_at))]
pub fn cattlecleat_host_part_in_place(
    state: &[u64; 8],
    words: &[u64],
    cells: &[u64],
    frame: &[u64; 3],
) -> CPart
    ensures { result
        ≡ part_told (world_held state.now zero_registers words.now cells.now) (host_frame_held frame.now) }
{
    part_told(state_held(state), words, cells, host_frame_held(frame))
}
