// A listing in parts of three records, on document 01's stack for the program.
use crate::say;
use listing::{list_block, list_end};
use replay::{Run, start};
use stack::open;
use std::io;

const PART: usize = 120;

pub fn list(rt: &impl Print, bytes: &[u8], fuel: u64) -> io::Result<()> {
    let mut words = [0u64; 256];
    let mut cells = [0u64; 4096];
    let mut text = [0u8; 420];
    let opened = open(32768, 64, &words, &cells);
    let run = list_parts(
        rt,
        start(opened.state, fuel),
        &mut words,
        &mut cells,
        bytes,
        &mut text,
    )?;
    let used = list_end(run, &mut text);
    say::text(rt, &text, used)
}

fn list_parts(
    rt: &impl Print,
    run: Run,
    words: &mut [u64],
    cells: &mut [u64],
    bytes: &[u8],
    text: &mut [u8],
) -> io::Result<Run> {
    let mut so_far = run;
    for part in bytes.chunks(PART) {
        let listed = list_block(so_far, words, cells, part, text);
        say::text(rt, text, listed.used)?;
        so_far = listed.run;
    }
    Ok(so_far)
}
