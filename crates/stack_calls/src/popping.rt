// Pop: a return. The newest frame goes, its debt wakes the caller's instance, and the frame below is answered.
ghost use Rattle.std.specs.Prelude.{◌≡◌};
ghost use Rattle.rules.specs.declared.Request.TheVariants.{Pop};
ghost use Rattle.rules.specs.declared.Asked.TheVariants.{Traced};
ghost use Rattle.rules.specs.World.{world_of};
ghost use Rattle.rules.specs.Answers.{shown_judgement, judged, shown_outcome};
ghost use Rattle.rules.specs.Returns.{pop_tests, pop_room, popped};
ghost use Rattle.rules.specs.Rules.{answered};

use rules::{Outcome, Refusal, Room, State};
use stack::{is_broken_next, no_host, refused, step_return, top_start};

// Whether a pop is refused: 9, 4.
pub fn judge_pop(s: State, words: &[u64], cells: &[u64]) -> Result<Room, Refusal>
    ensures { shown_judgement result
        ≡ judged (pop_tests (world_of s words.now cells.now)) (pop_room (world_of s words.now cells.now)) }
{
    let depth = s.depth;
    let count = s.count;
    let len = s.len;
    if is_broken_next(s, words, cells) {
        return Err(Refusal::Broken);
    }
    if count == 0 {
        return Err(Refusal::NoFrame);
    }
    let start = top_start(words, depth, count);
    Ok(Room {
        start,
        end: start,
        len,
        count: count - 1,
    })
}

// Returns: 1 where the last frame is gone; else the ip and start of the frame below, and the debt or else the instance given.
pub fn pop_frame(s: State, words: &[u64], cells: &[u64], instance: u64) -> Outcome
    ensures { shown_outcome result words.now cells.now
        ≡ answered (world_of s words.now cells.now) (Traced (Pop instance)) }
{
    match judge_pop(s, words, cells) {
        Err(why) => refused(s, why),
        Ok(room) => step_pop(s, words, cells, instance, room),
    }
}

// The step of a pop after `judge_pop` gave this room, and no request: it refuses nothing.
pub fn step_pop(s: State, words: &[u64], cells: &[u64], instance: u64, room: Room) -> Outcome
    ensures { shown_outcome result words.now cells.now ≡ popped (world_of s words.now cells.now) instance room }
{
    step_return(s, words, cells, instance, no_host(), room)
}
