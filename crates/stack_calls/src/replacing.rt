// Replace: a tail call. The newest frame stays where it is and becomes the callee's; its parameters are copied down, and its locals are cleared.
ghost use Rattle.std.specs.Prelude.{◌≡◌, [], ◌∷◌, ◌++◌, eqb};
ghost use Rattle.choice.specs.Choose.{choose};
ghost use Rattle.choice.specs.Tests.{◌gives◌};
ghost use Rattle.cells.specs.Cells.{replace_cells};
ghost use Rattle.rules.specs.declared.Request.TheVariants.{Replace};
ghost use Rattle.rules.specs.declared.Asked.TheVariants.{Traced};
ghost use Rattle.rules.specs.World.{world_of};
ghost use Rattle.rules.specs.Answers.{room_of, shown_judgement, judged, shown_outcome};
ghost use Rattle.rules.specs.Calls.{replace_tests, replace_room, replaced};
ghost use Rattle.rules.specs.Shared.{growth_tests, grown_to, beyond_len};
ghost use Rattle.rules.specs.Rules.{answered};

use crate::pushing::are_bad_counts;
use frames::{carried, debt_of, new_row, read_row, write_row};
use rules::{Outcome, Refusal, ReplaceArgs, Room, State};
use stack::{
    at_offset, from_top, is_beyond, is_broken_top, judge_growth, moved_state, refused, top_start,
};

// Whether a replace is refused: 9, 4, 5, 2, 3, 7.
pub fn judge_replace(
    s: State,
    words: &[u64],
    cells: &[u64],
    q: ReplaceArgs,
) -> Result<Room, Refusal>
    ensures { shown_judgement result
        ≡ judged (replace_tests (world_of s words.now cells.now) q) (replace_room (world_of s words.now cells.now) q) }
{
    let depth = s.depth;
    let count = s.count;
    let head = q.head;
    let params = q.params;
    let slots = q.slots;
    if is_broken_top(s, words, cells) {
        return Err(Refusal::Broken);
    }
    let start = top_start(words, depth, count);
    let end = start + slots as usize;
    let far = start + head as usize + params as usize;
    if count == 0 {
        return Err(Refusal::NoFrame);
    }
    if are_bad_counts(params, q.locals, slots) {
        return Err(Refusal::BadCounts);
    }
    judge_params(s, 0 < slots, start, end, far)
}

// Growth, and then 7: the parameters, which end at `far`, are looked for within the new `len`.
fn judge_params(s: State, some: bool, start: usize, end: usize, far: usize) -> Result<Room, Refusal>
    ensures { shown_judgement result
        ≡ judged (growth_tests s some end ++ (beyond_len some (grown_to s some end) far gives 7 ∷ [])) (room_of start end (grown_to s some end) s.count) }
{
    let count = s.count;
    match judge_growth(s, some, start, end, count) {
        Err(why) => Err(why),
        Ok(room) => {
            let len = room.len;
            judge_far(some, len, room, far)
        }
    }
}

fn judge_far(some: bool, len: usize, room: Room, far: usize) -> Result<Room, Refusal>
    ensures { shown_judgement result ≡ judged (beyond_len some len far gives 7 ∷ []) room }
{
    if is_beyond(some, len, far) {
        return Err(Refusal::BeyondLen);
    }
    Ok(room)
}

// Calls in place of the newest frame: the offset is its start.
pub fn replace_frame(s: State, words: &mut [u64], cells: &mut [u64], q: ReplaceArgs) -> Outcome
    ensures { shown_outcome result words.new cells.new
        ≡ answered (world_of s words.old cells.old) (Traced (Replace q)) }
{
    match judge_replace(s, words, cells, q) {
        Err(why) => refused(s, why),
        Ok(room) => step_replace(s, words, cells, q, room),
    }
}

// The step of a replace after `judge_replace` gave this room, and no request: it refuses nothing.
pub fn step_replace(
    s: State,
    words: &mut [u64],
    cells: &mut [u64],
    q: ReplaceArgs,
    room: Room,
) -> Outcome
    ensures { shown_outcome result words.new cells.new ≡ replaced (world_of s words.old cells.old) q room }
{
    let depth = s.depth;
    let current = s.current;
    let named = q.instance;
    let start = room.start;
    let next = room.len;
    let at = from_top(s.count, 1);
    let debt = debt_of(read_row(words, depth, at));
    write_row(
        words,
        depth,
        at,
        new_row(q.callee, start, carried(debt, current, named)),
    );
    replace_cells(
        cells, q.slots, s.len, next, start, q.head, q.params, q.locals,
    );
    Outcome {
        answer: Ok(at_offset(start)),
        state: moved_state(s, room.count, named.or(current), next),
    }
}

// A frame without slots touches no cell.
fn replace_cells(
    cells: &mut [u64],
    slots: u16,
    len: usize,
    next: usize,
    start: usize,
    head: u16,
    params: u16,
    locals: u16,
)
    ensures { cells.new
        ≡ choose (eqb slots 0) cells.old (replace_cells cells.old len next start head params locals) }
{
    if slots == 0 {
        return;
    }
    cells::replace(cells, len, next, start, head, params, locals);
}
