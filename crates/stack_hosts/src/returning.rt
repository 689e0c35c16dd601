// Return-host: a host's function is called last. The newest frame goes as with a pop, and the host's parameters are copied down to its start.
ghost use Rattle.std.specs.Prelude.{◌≡◌};
ghost use Rattle.choice.specs.Choose.{choose};
ghost use Rattle.cells.specs.Cells.{return_host_cells};
ghost use Rattle.rules.specs.declared.Request.TheVariants.{ReturnHost};
ghost use Rattle.rules.specs.declared.Asked.TheVariants.{Traced};
ghost use Rattle.rules.specs.World.{world_of};
ghost use Rattle.rules.specs.Answers.{no_host, host_of, shown_judgement, judged, shown_outcome};
ghost use Rattle.rules.specs.Hosts.{is_sized, return_host_tests, return_host_room, returned_host};
ghost use Rattle.rules.specs.Rules.{answered};

use cells::{HostFrame, host_size};
use rules::{Outcome, Refusal, ReturnHostArgs, Room, State};
use stack::{is_beyond, is_broken_next, judge_growth, no_host, refused, step_return, top_start};

// Whether a return-host is refused: 9, 4, 7, 2, 3. Note: 7 looks at `len` before growth, where replace looks at it after.
pub fn judge_return_host(
    s: State,
    words: &[u64],
    cells: &[u64],
    q: ReturnHostArgs,
) -> Result<Room, Refusal>
    ensures { shown_judgement result
        ≡ judged (return_host_tests (world_of s words.now cells.now) q) (return_host_room (world_of s words.now cells.now) q) }
{
    let depth = s.depth;
    let count = s.count;
    let len = s.len;
    let head = q.head;
    let params = q.params;
    let results = q.results;
    if is_broken_next(s, words, cells) {
        return Err(Refusal::Broken);
    }
    let size = host_size(params, results);
    let some = is_sized(params, results);
    let start = top_start(words, depth, count);
    let end = start + size;
    let far = start + head as usize + params as usize;
    if count == 0 {
        return Err(Refusal::NoFrame);
    }
    if is_beyond(some, len, far) {
        return Err(Refusal::BeyondLen);
    }
    judge_growth(s, some, start, end, count - 1)
}

// Whether a host's frame has cells: its counts are not both 0.
fn is_sized(params: u16, results: u16) -> bool
    ensures { result ≡ is_sized params results }
{
    !((params == 0) & (results == 0))
}

// Returns through a host's frame at the start of the frame that goes: the offset is the caller's start, or 0 with answer 1.
pub fn return_prepare_host_frame(
    s: State,
    words: &[u64],
    cells: &mut [u64],
    q: ReturnHostArgs,
) -> Outcome
    ensures { shown_outcome result words.now cells.new
        ≡ answered (world_of s words.now cells.old) (Traced (ReturnHost q)) }
{
    match judge_return_host(s, words, cells, q) {
        Err(why) => refused(s, why),
        Ok(room) => step_return_host(s, words, cells, q, room),
    }
}

// The step of a return-host after `judge_return_host` gave this room, and no request: it refuses nothing.
pub fn step_return_host(
    s: State,
    words: &[u64],
    cells: &mut [u64],
    q: ReturnHostArgs,
    room: Room,
) -> Outcome
    ensures { shown_outcome result words.now cells.new ≡ returned_host (world_of s words.now cells.old) q room }
{
    let params = q.params;
    let results = q.results;
    let start = room.start;
    let some = is_sized(params, results);
    let host = host_frame(some, start, room.end, params, results);
    return_host_cells(cells, some, s.len, room.len, start, q.head, params);
    step_return(s, words, cells, q.instance, host, room)
}

// The host's frame, of zeros where it has no cells.
fn host_frame(some: bool, start: usize, end: usize, params: u16, results: u16) -> HostFrame
    ensures { result ≡ choose some (host_of start end params results) no_host }
{
    if !some {
        return no_host();
    }
    HostFrame {
        start,
        end,
        params,
        results,
    }
}

// A host's frame without cells touches none.
fn return_host_cells(
    cells: &mut [u64],
    some: bool,
    len: usize,
    next: usize,
    start: usize,
    head: u16,
    params: u16,
)
    ensures { cells.new
        ≡ choose some (return_host_cells cells.old len next start head params) cells.old }
{
    if !some {
        return;
    }
    cells::return_prepare_host_frame(cells, len, next, start, head, params);
}
