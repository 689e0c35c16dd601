// Calls, tail calls and returns in place.
ghost use Rattle.std.specs.Prelude.{◌≡◌};
ghost use Rattle.rules.specs.declared.Request.TheVariants.{Push, Pop, Replace};
ghost use Rattle.rules.specs.declared.Asked.TheVariants.{Traced};
ghost use Rattle.face_place.specs.Args.{push_held, replace_held};
ghost use Rattle.face_place.specs.Placed.{offset_told, frame_told, answered_in, placed, moved_after, placed_after};

use crate::answers::{CFrame, COffset, frame_told, offset_told};
use crate::requests::{push_held, replace_held};
use crate::state::{move_state, state_held};
use stack_calls::{pop_frame, push_frame, replace_frame};

// Calls: the offset is the new frame's start. 9, 2 (depth), 4 or 6, 5, 2, 3.
#[tactic(auto, using(crate::proofs::Placing::is_placed))]
pub fn cattlecleat_push_frame(
    state: &mut [u64; 8],
    words: &mut [u64],
    cells: &mut [u64],
    q: &[u64; 6],
) -> COffset
    ensures { placed result state.new words.new cells.new
        ≡ placed_after offset_told moved_after state.old
        (answered_in state.old words.old cells.old (Traced (Push (push_held q.now)))) }
{
    let out = push_frame(state_held(state), words, cells, push_held(q));
    let answer = out.answer;
    let after = out.state;
    move_state(state, answer, after);
    offset_told(answer)
}

// Returns: 1 where the last frame is gone; else the ip and start of the frame below, and the debt or else the instance given. 9, 4.
#[tactic(auto, using(crate::proofs::Placing::is_placed))]
pub fn cattlecleat_pop_frame(
    state: &mut [u64; 8],
    words: &[u64],
    cells: &[u64],
    instance: u64,
) -> CFrame
    ensures { placed result state.new words.now cells.now
        ≡ placed_after frame_told moved_after state.old
        (answered_in state.old words.now cells.now (Traced (Pop instance))) }
{
    let out = pop_frame(state_held(state), words, cells, instance);
    let answer = out.answer;
    let after = out.state;
    move_state(state, answer, after);
    frame_told(answer)
}

// Calls in place of the newest frame: the offset is its start. 9, 4, 5, 2, 3, 7.
#[tactic(auto, using(crate::proofs::Placing::is_placed))]
pub fn cattlecleat_replace_frame(
    state: &mut [u64; 8],
    words: &mut [u64],
    cells: &mut [u64],
    q: &[u64; 4],
) -> COffset
    ensures { placed result state.new words.new cells.new
        ≡ placed_after offset_told moved_after state.old
        (answered_in state.old words.old cells.old (Traced (Replace (replace_held q.now)))) }
{
    let out = replace_frame(state_held(state), words, cells, replace_held(q));
    let answer = out.answer;
    let after = out.state;
    move_state(state, answer, after);
    offset_told(answer)
}
