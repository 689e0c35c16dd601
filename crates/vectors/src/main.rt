// Runs vectors, the files of text that its arguments name, through the C face, and compares every number. docs/VECTORS.md says how a line is read.
#![tactic(auto)]

ghost use Rattle.std.specs.Prelude.{◌≤◌};
ghost use Rattle.std.specs.Io.{ReadsAtMost};

mod asking;
mod leaves;
mod line;
mod states;
mod taping;
mod told;
mod tracing;
mod typed;
mod words;

use line::run_line;
use std::env::FillError;
use std::io::Read;
use std::rt::{Env, Files};
use std::{fs, io};
use vector_text::counts::Counts;
use vector_text::fault::LineError;
use vector_text::reading::read_line;
use vector_text::run::Run;
use vector_text::say;

// Words for one frame more than the largest depth, cells for the largest counts, 32 records, and the numbers of the longest line.
const WORDS: usize = 262_148;

const CELLS: usize = 65_540;

const TRACE: usize = 1280;

const TOKENS: usize = 512;

// The bytes of a file that is too long, and of the longest name of a file.
const TEXT: usize = 65_536;

const NAME: usize = 64;

fn main(rt: HostRuntime) -> io::Result<()> {
    let mut text = [0u8; TEXT];
    run_all(&rt, &mut text)
}

// Each argument is a file of less than 65,536 bytes.
fn run_all(rt: &(impl Files + Env + Print), text: &mut [u8]) -> io::Result<()> {
    let mut total = Counts::none_of(0);
    let mut files: u64 = 0;
    for i in 1..usize::MAX {
        if !is_given(rt, i) {
            break;
        }
        total = total.joined(run_named(rt, i, text)?);
        files = files.wrapping_add(1);
    }
    say::total(rt, files, total)
}

fn is_given(rt: &impl Env, file: usize) -> bool {
    let mut name = [0u8; NAME];
    match rt.arg(file, &mut name) {
        Err(FillError::NotPresent) => false,
        Ok(_) | Err(FillError::TooLong) => true,
    }
}

fn run_named(rt: &(impl Files + Env + Print), file: usize, text: &mut [u8]) -> io::Result<Counts> {
    let Ok(mut opened) = open_named(rt, file) else {
        say::missing(rt, file)?;
        return Ok(Counts::unread(file));
    };
    let n = read_full(&mut opened, text)?;
    if n == text.len() {
        say::too_long(rt, file)?;
        return Ok(Counts::unread(file));
    }
    run_file(rt, file, &text[..n])
}

// A longer name, or one that is no text, is no file's.
fn open_named<R: Files + Env>(rt: &R, file: usize) -> io::Result<R::File> {
    let mut name = [0u8; NAME];
    let n = match rt.arg(file, &mut name) {
        Ok(n) => n,
        Err(_) => 0,
    };
    match str::from_utf8(&name[..n]) {
        Ok(path) => fs::open(rt, path),
        Err(_) => fs::open(rt, ""),
    }
}

// As many bytes as there are, or as there is room for. As in listing_vectors: vector_text, which both could use, makes no promise.
// A while: each read says how far it came, and `read_exact` refuses a shorter file.
fn read_full(file: &mut impl Read, bytes: &mut [u8]) -> io::Result<usize>
    ensures { ReadsAtMost result bytes.new }
{
    let mut done = 0;
    while done < bytes.len() {
        let more = file.read(&mut bytes[done..])?;
        if more == 0 {
            break;
        }
        done += more;
    }
    Ok(done)
}

// A line a turn.
fn run_file(rt: &(impl Env + Print), file: usize, text: &[u8]) -> io::Result<Counts> {
    let mut words = [0u64; WORDS];
    let mut cells = [0u64; CELLS];
    let mut trace = [0u8; TRACE];
    let mut tokens = [0u64; TOKENS];
    let mut run = Run::of_file(rt, file, &mut words, &mut cells, &mut trace);
    for line in text.split_inclusive(|byte| *byte == b'\n') {
        run.go_on();
        match read_and_run(&mut run, &mut tokens, line) {
            Ok(()) => (),
            Err(LineError::Fault(fault)) => run.say_fault(fault)?,
            Err(LineError::Io(e)) => return Err(e),
        }
    }
    let counts = run.counts;
    say::sum(rt, counts)?;
    Ok(counts)
}

// A line of no numbers is a comment or empty.
fn read_and_run<R: Env + Print>(
    run: &mut Run<R>,
    tokens: &mut [u64],
    line: &[u8],
) -> Result<(), LineError> {
    match read_line(tokens, line)? {
        0 => Ok(()),
        n => run_line(run, &tokens[..n.min(tokens.len())]),
    }
}
