// What calls and hosts share: two causes of refusal, and the return ('pop as above').
ghost use Rattle.std.specs.Prelude.{◌≡◌, Ok};
ghost use Rattle.frames.specs.Rows.{row_at};
ghost use Rattle.rules.specs.World.{world_of, from_top};
ghost use Rattle.rules.specs.Answers.{shown_answer, shown_outcome};
ghost use Rattle.rules.specs.Returns.{instance_after, returned_to, returned};
ghost use Rattle.rules.specs.Shared.{stray_ip, beyond_len};

use crate::answer::moved_state;
use crate::look::from_top;
use cells::HostFrame;
use frames::{Row, debt_of, read_row};
use regs::Registers;
use rules::{Outcome, Reply, Room, State, Values};

// Whether a caller's ip is given without a frame to store it in.
pub fn is_stray_ip(count: usize, caller: Option<u64>) -> bool
    ensures { result ≡ stray_ip count caller }
{
    caller.is_some() & (count == 0)
}

// Whether the parameters end beyond `len`, where the request has cells to look for; with params 0 too. Note: replace asks it of the new `len`,
// return-host of the one before growth.
// The flag is that of `beyond_len`.
pub fn is_beyond(some: bool, len: usize, end: usize) -> bool
    ensures { result ≡ beyond_len some len end }
{
    some & (len < end)
}

// The step of a return after its judgement gave this room, and no request: the newest frame goes, and the host frame given is answered with it. It
// refuses nothing and writes no cell.
pub fn step_return(
    s: State,
    words: &[u64],
    cells: &[u64],
    instance: u64,
    host: HostFrame,
    room: Room,
) -> Outcome
    ensures { shown_outcome result words.now cells.now
        ≡ returned (world_of s words.now cells.now) instance host room cells.now }
{
    let depth = s.depth;
    let count = s.count;
    let top = read_row(words, depth, from_top(count, 1));
    Outcome {
        answer: Ok(returned_to(words, depth, count, top, instance, host)),
        state: moved_state(s, room.count, instance_after(s, top), room.len),
    }
}

// What a return from the newest of `count` frames answers, with the host frame that goes with it. The next frame is read where there is one, so that the
// compiler knows where it lies.
fn returned_to(
    words: &[u64],
    depth: usize,
    count: usize,
    top: Row,
    instance: u64,
    host: HostFrame,
) -> Reply
    ensures { shown_answer (Ok result) ≡ returned_to count top (row_at depth words.now (from_top count 2)) instance host }
{
    if count == 1 {
        return Reply::Gone(host);
    }
    let next = read_row(words, depth, from_top(count, 2));
    let woken = debt_of(top).or(Some(instance));
    Reply::Done(Values {
        offset: next.start as usize,
        ip: next.ip,
        instance: woken.unwrap_or(0),
        host,
        regs: Registers::zeroed(),
    })
}

// The current instance once the top frame is gone: its debt where it has one. With the last frame the debt is forgotten.
fn instance_after(s: State, top: Row) -> Option<u64>
    ensures { result ≡ instance_after s top }
{
    let frames = s.count;
    let current = s.current;
    if frames == 1 {
        return current;
    }
    debt_of(top).or(current)
}
