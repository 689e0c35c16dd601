// Traces as tapes: each with a title, a line for each block and each end, which has its bytes, its room and its answer, and the text.
use crate::steps::Coming::{Block, End};
use crate::steps::{Script, play};
use crate::{say, traces};
use std::io;
use std::rt::Files;

// Room for four of the longest lines; one has 105 bytes.
const FOUR: usize = 420;

pub fn show(rt: &(impl Files + Print)) -> io::Result<()> {
    say::in_blocks(rt)?;
    cuts(rt)?;
    rooms(rt)?;
    ends(rt)?;
    stops(rt)
}

// Cut at every byte: the rest comes whole, whatever the script says of it.
fn cuts(rt: &(impl Files + Print)) -> io::Result<()> {
    let mut bytes = [0u8; 8000];
    let n = traces::read(rt, "short.trace", &mut bytes)?;
    cut_each(rt, &bytes[..n])
}

fn cut_each(rt: &impl Print, bytes: &[u8]) -> io::Result<()> {
    for k in 0..=bytes.len() {
        say::title(rt, "short.trace", 1000000)?;
        let script = [(Block(k), FOUR), (Block(bytes.len()), FOUR), (End, FOUR)];
        play(rt, bytes, 1000000, &script)?;
    }
    Ok(())
}

// One byte too little, and exactly enough, for two records, for one that a block completes, and for a short one.
fn rooms(rt: &(impl Files + Print)) -> io::Result<()> {
    let block = [
        (Block(80), 209),
        (Block(80), 210),
        (Block(39), 0),
        (Block(1), 104),
        (Block(1), 105),
        (Block(80), FOUR),
        (End, 0),
    ];
    tape(rt, "worked.trace", 8, &block)?;
    let short = [(Block(81), 209), (Block(81), 210), (End, 104), (End, 105)];
    tape(rt, "short.trace", 1000000, &short)
}

// Behind an end: blocks, an empty one, and another end.
fn ends(rt: &(impl Files + Print)) -> io::Result<()> {
    let script = [
        (Block(47), FOUR),
        (Block(0), 0),
        (End, FOUR),
        (Block(40), FOUR),
        (Block(0), 0),
        (End, 0),
        (Block(1), 0),
    ];
    tape(rt, "worked.trace", 1000000, &script)
}

// A stop before a whole record, and before a short one; blocks and ends behind it.
fn stops(rt: &(impl Files + Print)) -> io::Result<()> {
    let whole = [
        (Block(79), FOUR),
        (Block(2), FOUR),
        (Block(30), 0),
        (Block(0), 0),
        (End, 0),
        (Block(40), 0),
        (End, 0),
    ];
    tape(rt, "worked.trace", 3, &whole)?;
    let short = [
        (Block(38), 0),
        (End, 104),
        (End, 105),
        (Block(1), 0),
        (End, 0),
    ];
    tape(rt, "only_short.trace", 0, &short)
}

fn tape(rt: &(impl Files + Print), name: &str, fuel: u64, script: Script) -> io::Result<()> {
    say::title(rt, name, fuel)?;
    let mut bytes = [0u8; 8000];
    let n = traces::read(rt, name, &mut bytes)?;
    play(rt, &bytes[..n], fuel, script)
}
