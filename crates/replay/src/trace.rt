// Replay over the bytes of a lent trace: the record at a place, and a whole trace.
ghost use Rattle.std.specs.Prelude.{◌≡◌, ◌<◌, length};
ghost use Rattle.record.specs.Form.{record_size};
ghost use Rattle.replay.specs.Packing.{running_again};
ghost use Rattle.replay.specs.Running.{running_of, replayed};
ghost use Rattle.replay.specs.Turns.{shown_turn, turn_at};

use crate::flat::{Fixed, Moving, ran_again, refused_at, run_again};
use crate::run::{Ran, Run, nothing_ran};
use crate::turn::turn;
use record::{BAD_RECORD, RECORD_SIZE};
use request::place_after;

// A run after the record at a place, with the place of the next.
#[derive(Clone, Copy)]
pub struct Turn {
    pub ran: Ran,
    pub next: usize,
}

// Runs the record at a place of a trace. At the end there is none, and nothing changes.
pub fn run_next(run: Run, words: &mut [u64], cells: &mut [u64], bytes: &[u8], at: usize) -> Turn
    ensures { shown_turn result words.new cells.new
        ≡ turn_at (running_of run words.old cells.old) bytes.now at }
{
    if bytes.len() <= at {
        return Turn {
            ran: nothing_ran(run),
            next: at,
        };
    }
    let next = place_after(bytes, at);
    if run.stop.is_some() {
        return Turn {
            ran: nothing_ran(run),
            next,
        };
    }
    let f = Fixed::from(run);
    Turn {
        ran: ran_again(f, turn(f, Moving::from(run), words, cells, bytes, at)),
        next,
    }
}

// Runs a whole trace, or up to where the fuel does not cover a record. The loop is over whole records: so no place is tested in it.
pub fn replay(run: Run, words: &mut [u64], cells: &mut [u64], bytes: &[u8]) -> Run
    ensures { running_of result words.new cells.new
        ≡ replayed (running_of run words.old cells.old) bytes.now }
{
    if run.stop.is_some() {
        return run;
    }
    let f = Fixed::from(run);
    let mut m = Moving::from(run);
    let (records, rest) = bytes.as_chunks::<RECORD_SIZE>();
    for record in records {
        let went = turn(f, m, words, cells, record, 0);
        if went.stop.is_some() {
            return ran_again(f, went).run;
        }
        m = went.moving;
    }
    short_end(f, m, words, cells, rest)
}

// Behind the whole records: the end, or a short record, which reads badly.
fn short_end(f: Fixed, m: Moving, words: &[u64], cells: &[u64], rest: &[u8]) -> Run
    requires { length rest.now < record_size }
    ensures { running_of result words.now cells.now
        ≡ replayed (running_again f m words.now cells.now) rest.now }
{
    if rest.is_empty() {
        return run_again(f, m);
    }
    ran_again(f, refused_at(f, m, BAD_RECORD)).run
}
