// A tape on document 01's stack for the program, played by a script: what comes next, and how much text is lent. A block that is refused comes again.
use crate::say;
use listing::{LinesError, list_end, list_feed, list_finish};
use replay::start;
use stack::open;
use std::io;
use tape::{Tape, begin};

// So many bytes, or as many as there are; or the end.
#[derive(Clone, Copy)]
pub enum Coming {
    Block(usize),
    End,
}

pub type Script<'a> = &'a [(Coming, usize)];

pub fn play(rt: &impl Print, bytes: &[u8], fuel: u64, script: Script) -> io::Result<()> {
    let mut words = [0u64; 256];
    let mut cells = [0u64; 4096];
    let mut text = [0u8; 420];
    let opened = open(32768, 64, &words, &cells);
    let mut tape = begin(start(opened.state, fuel));
    play_all(
        rt, &mut tape, &mut words, &mut cells, bytes, script, &mut text,
    )?;
    let used = list_end(tape.run, &mut text);
    say::text(rt, &text, used)
}

fn play_all(
    rt: &impl Print,
    tape: &mut Tape,
    words: &mut [u64],
    cells: &mut [u64],
    bytes: &[u8],
    script: Script,
    text: &mut [u8],
) -> io::Result<()> {
    let mut at = 0;
    for (coming, room) in script {
        let lent = (*room).min(text.len());
        at = step(
            rt,
            tape,
            words,
            cells,
            bytes,
            at,
            *coming,
            &mut text[..lent],
        )?;
    }
    Ok(())
}

// The place behind the bytes that were taken. The buffers stay apart: of two that lie behind one reference no proof lends both at once yet.
fn step(
    rt: &impl Print,
    tape: &mut Tape,
    words: &mut [u64],
    cells: &mut [u64],
    bytes: &[u8],
    at: usize,
    coming: Coming,
    text: &mut [u8],
) -> io::Result<usize> {
    let Coming::Block(most) = coming else {
        let told = list_finish(tape, words, cells, text);
        say::end(rt, text.len())?;
        say_answer(rt, told, text)?;
        return Ok(at);
    };
    let rest = &bytes[at.min(bytes.len())..];
    let block = &rest[..most.min(rest.len())];
    let fed = list_feed(tape, words, cells, block, text);
    say::block(rt, block.len(), text.len())?;
    say_answer(rt, fed, text)?;
    Ok(if fed.is_ok() {
        at.wrapping_add(block.len())
    } else {
        at
    })
}

// By document 01's numbers: `LinesError` has none of its own.
fn say_answer(rt: &impl Print, fed: Result<usize, LinesError>, text: &[u8]) -> io::Result<()> {
    match fed {
        Ok(used) => say::answer(rt, 0, text, used),
        Err(LinesError::AfterEnd) => say::answer(rt, 22, text, 0),
        Err(LinesError::NoRoom) => say::answer(rt, 19, text, 0),
    }
}
