// Traces walked by the reader, two answers a turn: no bytes, document 01's example, the same with record 2 bad, whole and with a short tail of 1
// and of 39 bytes. Then single turns at places within a record, at the end and beyond it.
use crate::{answers, say};
use rules::{PushArgs, Request};
use std::io;

const FILL: u8 = 0xee;

const PLACES: [usize; 6] = [
    20,
    190,
    200,
    201,
    0xffff_ffff_ffff_ffd8,
    0xffff_ffff_ffff_ffff,
];

pub fn run(rt: &impl Print) -> io::Result<()> {
    let mut trace = [FILL; 200];
    write_example(&mut trace);
    say::title(
        rt,
        "place answer next, kind flags head params locals slots results word1 word2 word3, unlike the cursor's",
    )?;
    say::title(rt, "no bytes")?;
    walk(rt, &trace, 0)?;
    say::title(rt, "the example")?;
    walk(rt, &trace, 200)?;
    trace[80] = 0;
    say::title(rt, "record 2 bad")?;
    walk(rt, &trace, 200)?;
    say::title(rt, "a tail of 1 byte")?;
    walk(rt, &trace, 121)?;
    say::title(rt, "a tail of 39 bytes")?;
    walk(rt, &trace, 79)?;
    say::title(rt, "places 20, 190, 200, 201, 2^64 - 40, 2^64 - 1")?;
    turns(rt, &trace)
}

// Push, push, and three pops.
fn write_example(trace: &mut [u8; 200]) {
    let first = PushArgs {
        caller: None,
        callee: 100,
        head: 0,
        params: 0,
        locals: 2,
        slots: 4,
        instance: Some(1),
    };
    let second = PushArgs {
        caller: Some(101),
        callee: 200,
        head: 2,
        params: 1,
        locals: 2,
        slots: 3,
        instance: Some(2),
    };
    let _ = request::write_request(&mut trace[..], 0, Request::Push(first));
    let _ = request::write_request(&mut trace[..], 40, Request::Push(second));
    let _ = request::write_request(&mut trace[..], 80, Request::Pop(2));
    let _ = request::write_request(&mut trace[..], 120, Request::Pop(2));
    let _ = request::write_request(&mut trace[..], 160, Request::Pop(2));
}

// The first bytes of a trace, past their end.
fn walk(rt: &impl Print, trace: &[u8; 200], len: usize) -> io::Result<()> {
    if 200 < len {
        return Ok(());
    }
    let all = &trace[..];
    let part = &all[0..len];
    let mut at = 0;
    for _ in 0..(len / 40 + 3) / 2 {
        at = answers::turn(rt, part, at)?;
    }
    Ok(())
}

fn turns(rt: &impl Print, trace: &[u8; 200]) -> io::Result<()> {
    let all = &trace[..];
    for place in PLACES {
        answers::turn(rt, all, place)?;
    }
    Ok(())
}
