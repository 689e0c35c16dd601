// A host's parts of ten cells, six of them in use. A case has three rows: the numbers of the host part and of the routine's call, how many
// parameters there are to read and the first, how many cells there are to write; the cells after 50 is written to the first of those; and the
// cells after the routine, which stores the sum of its parameters there.
use crate::say;
use cells::HostFrame;
use regs::Registers;
use rules::State;
use std::io;

const CELLS: [u64; 10] = [1, 2, 3, 4, 5, 0xffff_ffff_ffff_ffff, 7, 8, 9, 10];

// How many words are lent, and the numbers of the host part: start, end, params, results.
const ASKED: [(usize, usize, usize, u16, u16); 10] = [
    (12, 2, 5, 3, 1),
    (12, 2, 5, 0, 3),
    (12, 3, 6, 3, 1),
    (12, 3, 6, 1, 3),
    (12, 4, 7, 3, 1),
    (12, 3, 5, 3, 1),
    (12, 5, 5, 0, 0),
    (12, 0xffff_ffff_ffff_ffff, 0, 0, 0),
    (13, 2, 5, 3, 1),
    (11, 2, 5, 0, 0),
];

pub fn run(rt: &impl Print) -> io::Result<()> {
    say::title(
        rt,
        "part call params first results; cells written; cells called",
    )?;
    for (lent, start, end, params, results) in ASKED {
        let frame = HostFrame {
            start,
            end,
            params,
            results,
        };
        show(rt, lent, frame)?;
    }
    Ok(())
}

// The state says that so many words are lent, which is right for 12.
fn show(rt: &impl Print, lent: usize, frame: HostFrame) -> io::Result<()> {
    let s = state(lent);
    let words = [99u64; 12];
    let mut cells = CELLS;
    let mut called = CELLS;
    let part = stack_hosts::host_inout(s, &words[..], &cells[..], frame);
    let call = stack_hosts::call_host(s, &words[..], &mut called[..], frame);
    let params = stack_hosts::host_params(s, &words[..], &cells[..], frame);
    let count = params.len();
    let first = params.first().copied().unwrap_or(0);
    let room = write(stack_hosts::host_results(s, &words[..], &mut cells[..], frame));
    let answer = part.answer;
    let answered = call.answer;
    say::row(
        rt,
        &[
            stack::answer_number(answer),
            stack::answer_number(answered),
            count as u64,
            first,
            room as u64,
        ],
    )?;
    say::row(rt, &cells[..])?;
    say::row(rt, &called[..])
}

fn state(words: usize) -> State {
    State {
        depth: 3,
        height: 12,
        words,
        cells: 10,
        count: 0,
        len: 6,
        current: None,
        regs: Registers::zeroed(),
    }
}

// How many cells there are to write.
fn write(part: &mut [u64]) -> usize {
    if let Some(first) = part.first_mut() {
        *first = 50;
    }
    part.len()
}
