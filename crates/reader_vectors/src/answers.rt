// The reader's answers, each beside the cursor's and the iterator's. A line: the place, the answer's number, the next place (0 at the end), the
// request's record (all 0 where there is none), and 1 where the cursor or the iterator answers otherwise.
use crate::say;
use record::{BAD_RECORD, BadRecord, Record, ZERO_RECORD};
use rules::Request;
use std::io;

// What stands at a place, with the place of the next.
type Next = Option<(Result<Request, BadRecord>, usize)>;

#[derive(Clone, Copy)]
pub struct Told {
    pub number: u64,
    pub next: usize,
    pub record: Record,
}

// Two lines. The place behind both.
pub fn turn(rt: &impl Print, trace: &[u8], at: usize) -> io::Result<usize> {
    let two = reader::next_two(trace, at);
    let first = two.first;
    let second = two.second;
    let between = request::place_after(trace, at);
    line(rt, trace, at, first)?;
    line(rt, trace, between, second)?;
    Ok(request::place_after(trace, between))
}

fn line(rt: &impl Print, trace: &[u8], at: usize, answer: Next) -> io::Result<()> {
    let t = tell(answer);
    let cursor = tell(request::next_request(trace, at));
    let iterated = tell(handed_on(trace, at));
    let r = t.record;
    say::row(
        rt,
        &[
            at as u64,
            t.number,
            t.next as u64,
            r.kind as u64,
            r.flags as u64,
            r.head as u64,
            r.params as u64,
            r.locals as u64,
            r.slots as u64,
            r.results as u64,
            r.word1,
            r.word2,
            r.word3,
            unlike(t, cursor) | unlike(t, iterated),
        ],
    )
}

// What stands at a place, as the reader's iterator has it.
fn handed_on(trace: &[u8], at: usize) -> Next {
    let mut reader = reader::reader_at(trace, at);
    let entry = reader.next()?;
    Some((entry, reader.at))
}

fn tell(answer: Next) -> Told {
    match answer {
        Some((Ok(q), next)) => Told {
            number: 0,
            next,
            record: request::record_of(q),
        },
        Some((Err(BadRecord), next)) => Told {
            number: BAD_RECORD,
            next,
            record: ZERO_RECORD,
        },
        None => Told {
            number: 0,
            next: 0,
            record: ZERO_RECORD,
        },
    }
}

// By hand: record's `Record` has no equality.
fn unlike(t: Told, u: Told) -> u64 {
    let r = t.record;
    let s = u.record;
    let answers = (t.number != u.number) | (t.next != u.next);
    let counts = (r.head != s.head)
        | (r.params != s.params)
        | (r.locals != s.locals)
        | (r.slots != s.slots)
        | (r.results != s.results);
    let words = (r.word1 != s.word1) | (r.word2 != s.word2) | (r.word3 != s.word3);
    (answers | (r.kind != s.kind) | (r.flags != s.flags) | counts | words) as u64
}
