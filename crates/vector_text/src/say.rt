// What is printed: differences and bad lines, each with its file and line, and what was counted.
use crate::counts::Counts;
use crate::fault::Fault;
use crate::tokens::{BAR, MISSING};
use std::rt::Env;
use std::{fmt, io};

// No longer name is said.
const NAME_ROOM: usize = 64;

// What numbers are called: each by a name of its own, or all by one, with the place in the list.
#[derive(Clone, Copy)]
pub enum Names<'a> {
    Each(&'a [&'a str]),
    List(&'a str),
}

// A number of a line, or what stands in place of one.
#[derive(Clone, Copy)]
struct Shown(u64);

impl fmt::Display for Shown {
    fn fmt<W: fmt::Write>(&self, f: &mut fmt::Formatter<W>) -> fmt::Result {
        match self.0 {
            BAR => f.write_str("|"),
            MISSING => f.write_str("nothing"),
            number => write!(f, "{number}"),
        }
    }
}

// A file is an argument of the program.
fn file_name(rt: &(impl Env + Print), file: usize) -> io::Result<()> {
    let mut name = [0u8; NAME_ROOM];
    match rt.arg(file, &mut name) {
        Ok(n) => rt.write_all(&name[..n]),
        Err(_) => Ok(()),
    }
}

// Each is one println: one function of both would be println itself.
pub fn missing(rt: &(impl Env + Print), file: usize) -> io::Result<()> {
    file_name(rt, file)?;
    println!(rt; ": cannot be opened")
}

pub fn too_long(rt: &(impl Env + Print), file: usize) -> io::Result<()> {
    file_name(rt, file)?;
    println!(rt; ": too long")
}

fn place(rt: &(impl Env + Print), c: Counts) -> io::Result<()> {
    file_name(rt, c.file)?;
    print!(rt; ":{}: ", c.lines)
}

pub fn difference(
    rt: &(impl Env + Print),
    c: Counts,
    names: Names,
    i: usize,
    expected: u64,
    given: u64,
) -> io::Result<()> {
    place(rt, c)?;
    field(rt, names, i)?;
    println!(rt; " expected {}, given {}", Shown(expected), Shown(given))
}

fn field(rt: &impl Print, names: Names, i: usize) -> io::Result<()> {
    match names {
        Names::Each(each) => match each.get(i) {
            Some(name) => print!(rt; "{name:<8}"),
            None => print!(rt; "{i}"),
        },
        Names::List(all) => print!(rt; "{all} {i}"),
    }
}

pub fn fault(rt: &(impl Env + Print), c: Counts, fault: Fault) -> io::Result<()> {
    place(rt, c)?;
    println!(rt; "{fault:<32}")
}

pub fn sum(rt: &(impl Env + Print), c: Counts) -> io::Result<()> {
    file_name(rt, c.file)?;
    println!(rt; ": {} lines, {c}", c.lines)
}

pub fn total(rt: &impl Print, files: u64, c: Counts) -> io::Result<()> {
    println!(rt; "all: {files} files, {c}")
}

impl fmt::Display for Counts {
    fn fmt<W: fmt::Write>(&self, f: &mut fmt::Formatter<W>) -> fmt::Result {
        write!(
            f,
            "{} entries, {} numbers compared, ",
            self.entries, self.compared
        )?;
        write!(f, "{} differ, {} bad lines", self.differ, self.bad)
    }
}
