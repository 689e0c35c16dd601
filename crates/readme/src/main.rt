// README.md's blocks of Rattle, word for word (tools/snippets), with a line for each number that their comments claim. The expected lines
// (stdout) are worked out from document 01 by hand; none is taken from a run of this program.
#![tactic(auto)]

mod say;

use done::{DoneReason, DoneSlot};
use record::BadRecord;
use regs::{InRegister, NoAddress};
use rules::{PushArgs, Reply, Request};
use std::io;

fn main(rt: HostRuntime) -> io::Result<()> {
    let mut words = [0u64; 12];
    let mut cells = [0u64; 10];
    let mut trace = [0u8; 80];
    let mut text = [0u8; 210];
    leaves(&rt)?;
    let first = calls(&rt, &mut words, &mut cells)?;
    let _ = request::write_request(&mut trace, 0, Request::Push(first));
    records(&rt, &mut trace)?;
    replays(&rt, &mut words, &mut cells, &trace, &mut text)
}

fn leaves(rt: &impl Print) -> io::Result<()> {
    let register = (-1i8).into_register(); // 255: the number's bits, zero-extended
    let address = match regs::align_relative_to(1003, 1000) {
        Ok(address) => address, // 1008
        Err(NoAddress) => 0, // 15: ip below base, or no such address
    };
    let (filled, slot) = DoneSlot::empty().done_with(DoneReason::Returned(7)); // Ok(())
    let (taken, after) = slot.take_done_reason(); // Ok(Returned(7)), and the slot empty again
    say::number(rt, "register", register)?;
    say::number(rt, "address", address)?;
    say::taken(rt, taken)?;
    say::slot(rt, after)
}

fn calls(rt: &impl Print, words: &mut [u64], cells: &mut [u64]) -> io::Result<PushArgs> {
    let opened = stack::open(80, 3, words, cells); // M 80 bytes, D 3
    let first = PushArgs {
        caller: None,
        callee: 100,
        head: 0,
        params: 0,
        locals: 2,
        slots: 4,
        instance: Some(1),
    };
    let called = stack_calls::push_frame(opened.state, words, cells, first);
    let answer = called.answer;
    let start = match answer {
        Ok(Reply::Done(values)) => values.offset, // 0: the start of the new frame
        Ok(Reply::Gone(_)) => 0, // 1: only a return can say so
        Err(_) => 0, // 2 and above: nothing has changed
    };
    let back = stack_calls::pop_frame(called.state, words, cells, 1); // Gone
    let state = opened.state;
    say::number(rt, "height", state.height as u64)?;
    say::number(rt, "depth", state.depth as u64)?;
    say::number(rt, "push", stack::answer_number(answer))?;
    say::number(rt, "start", start as u64)?;
    let returned = back.answer;
    say::number(rt, "pop", stack::answer_number(returned))?;
    Ok(first)
}

fn records(rt: &impl Print, trace: &mut [u8]) -> io::Result<()> {
    let written = request::write_request(trace, 40, Request::Pop(2)); // Ok; 10: no room
    let next = match request::next_request(trace, 0) {
        Some((Ok(_), next)) => next, // a request, and 40, the place of the next record
        Some((Err(BadRecord), next)) => next, // 10: no lawful record; the walk goes on
        None => 0, // nothing stands here
    };
    say::written(rt, written)?;
    say::written(rt, request::write_request(trace, 41, Request::Pop(2)))?;
    say::number(rt, "next", next as u64)
}

fn replays(
    rt: &impl Print,
    words: &mut [u64],
    cells: &mut [u64],
    trace: &[u8],
    text: &mut [u8],
) -> io::Result<()> {
    let opened = stack::open(80, 3, words, cells);
    let begun = replay::start(opened.state, 1000000);
    say::number(rt, "number", begun.number)?;
    say::number(rt, "spent", begun.spent)?;
    let mut run = replay::start(opened.state, 1000000); // number 0, nothing spent
    run = replay::replay(run, words, cells, trace); // number 2, 4 spent
    let stop = run.stop; // None: it did not stop before a record
    let listed = listing::list_block(run, words, cells, trace, text); // lines of 2 and 3
    say::number(rt, "number", run.number)?;
    say::number(rt, "spent", run.spent)?;
    say::number(rt, "stop", stop.is_some() as u64)?;
    say::text(rt, text, listed.used)?;
    let used = listing::list_end(listed.run, text);
    say::text(rt, text, used)
}
