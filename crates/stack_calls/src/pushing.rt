// Push: a call. The caller's ip is stored, a frame is added, and its locals are cleared.
ghost use Rattle.std.specs.Prelude.{◌≡◌, false, ◌∷◌, ltb, eqb};
ghost use Rattle.choice.specs.Choose.{choose};
ghost use Rattle.choice.specs.Tests.{◌gives◌};
ghost use Rattle.cells.specs.Cells.{push_cells};
ghost use Rattle.rules.specs.declared.Request.TheVariants.{Push};
ghost use Rattle.rules.specs.declared.Asked.TheVariants.{Traced};
ghost use Rattle.rules.specs.World.{world_of};
ghost use Rattle.rules.specs.Answers.{room_of, shown_judgement, judged, shown_outcome};
ghost use Rattle.rules.specs.Calls.{missing_ip, head_of_none, push_tests, push_room, pushed};
ghost use Rattle.rules.specs.Shared.{growth_tests, grown_to, bad_counts};
ghost use Rattle.rules.specs.Rules.{answered};

use frames::{new_row, owing, write_row};
use rules::{Outcome, PushArgs, Refusal, Room, State};
use stack::{
    at_offset, is_broken_top, is_stray_ip, judge_growth, moved_state, refused, store_ip, top_start,
};

// Whether a push is refused: 9, 2 (depth), 4 or 6, 5, 2, 3.
pub fn judge_push(s: State, words: &[u64], cells: &[u64], q: PushArgs) -> Result<Room, Refusal>
    ensures { shown_judgement result
        ≡ judged (push_tests (world_of s words.now cells.now) q) (push_room (world_of s words.now cells.now) q) }
{
    let depth = s.depth;
    let count = s.count;
    let caller = q.caller;
    let head = q.head;
    let slots = q.slots;
    if is_broken_top(s, words, cells) {
        return Err(Refusal::Broken);
    }
    let start = top_start(words, depth, count) + head as usize;
    let end = start + slots as usize;
    let more = count + 1;
    // the count is at most the limit: asked so, the compiler knows that the new row is there
    if depth <= count {
        return Err(Refusal::Overflow);
    }
    if is_stray_ip(count, caller) {
        return Err(Refusal::NoFrame);
    }
    if is_missing_ip(count, caller) {
        return Err(Refusal::NoCallerIp);
    }
    judge_counts(s, q, start, end, more)
}

// The rest of it: 5, 2, 3.
fn judge_counts(
    s: State,
    q: PushArgs,
    start: usize,
    end: usize,
    count: usize,
) -> Result<Room, Refusal>
    ensures { shown_judgement result
        ≡ judged (bad_counts q.params q.locals q.slots gives 5 ∷ head_of_none q.head q.slots gives 5 ∷ growth_tests s (ltb 0 q.slots) end)
        (room_of start end (grown_to s (ltb 0 q.slots) end) count) }
{
    let slots = q.slots;
    if are_bad_counts(q.params, q.locals, slots) {
        return Err(Refusal::BadCounts);
    }
    if slots == 0 {
        return judge_none(s, q.head, start, end, count);
    }
    judge_growth(s, true, start, end, count)
}

// Of a frame without slots: 5 where it has a head. It does not grow.
fn judge_none(s: State, head: u16, start: usize, end: usize, count: usize) -> Result<Room, Refusal>
    ensures { shown_judgement result
        ≡ judged (head_of_none head 0 gives 5 ∷ growth_tests s false end) (room_of start end (grown_to s false end) count) }
{
    if head != 0 {
        return Err(Refusal::BadCounts);
    }
    judge_growth(s, false, start, end, count)
}

// Whether no caller's ip is given over a frame.
fn is_missing_ip(count: usize, caller: Option<u64>) -> bool
    ensures { result ≡ missing_ip count caller }
{
    !caller.is_some() & (count != 0)
}

// Whether the counts are not in order: params ≤ locals ≤ slots.
pub fn are_bad_counts(params: u16, locals: u16, slots: u16) -> bool
    ensures { result ≡ bad_counts params locals slots }
{
    !((params <= locals) & (locals <= slots))
}

// Calls: the offset is the new frame's start.
pub fn push_frame(s: State, words: &mut [u64], cells: &mut [u64], q: PushArgs) -> Outcome
    ensures { shown_outcome result words.new cells.new
        ≡ answered (world_of s words.old cells.old) (Traced (Push q)) }
{
    match judge_push(s, words, cells, q) {
        Err(why) => refused(s, why),
        Ok(room) => step_push(s, words, cells, q, room),
    }
}

// The step of a push after `judge_push` gave this room, and no request: it refuses nothing.
pub fn step_push(s: State, words: &mut [u64], cells: &mut [u64], q: PushArgs, room: Room) -> Outcome
    ensures { shown_outcome result words.new cells.new ≡ pushed (world_of s words.old cells.old) q room }
{
    let depth = s.depth;
    let count = s.count;
    let current = s.current;
    let caller = q.caller;
    let named = q.instance;
    let start = room.start;
    let next = room.len;
    store_ip(words, depth, count, caller);
    write_row(
        words,
        depth,
        count,
        new_row(q.callee, start, owing(current, named)),
    );
    push_cells(cells, q.slots, s.len, next, start, q.params, q.locals);
    Outcome {
        answer: Ok(at_offset(start)),
        state: moved_state(s, room.count, named.or(current), next),
    }
}

// A frame without slots touches no cell.
fn push_cells(
    cells: &mut [u64],
    slots: u16,
    len: usize,
    next: usize,
    start: usize,
    params: u16,
    locals: u16,
)
    ensures { cells.new
        ≡ choose (eqb slots 0) cells.old (push_cells cells.old len next start params locals) }
{
    if slots == 0 {
        return;
    }
    cells::push(cells, len, next, start, params, locals);
}
