// What is said beside the listing. What went wrong is said on standard error; where that cannot be written either, nobody is told.
use crate::fault::ReplayError;
use crate::output::write_text;
use std::io;
use std::io::Write;

pub fn help(rt: &impl Print) -> io::Result<()> {
    println!(rt; "cattlecleat [replay] < TRACE\n")?;
    println!(rt;
        "Replays a trace of 40-byte records from standard input and prints its listing: a line per record with"
    )?;
    println!(rt;
        "record number, answer, offset, depth and len; then, if the fuel did not suffice, `stopped`, record"
    )?;
    println!(rt; "number and cost; then `spent` and the sum.")
}

// No error, whose Display it could be: the program ends with 0.
pub fn unknown(rt: &impl Eprint) {
    let _ = eprintln!(rt; "cattlecleat: no such word; 'cattlecleat help' lists them");
}

pub fn failed(rt: &impl Eprint, why: ReplayError) {
    let _ = eprintln!(rt; "cattlecleat: {why}; the listing ends here");
}

// The first bytes of a text.
pub fn listing<W: Write>(output: &mut W, text: &[u8], used: usize) -> io::Result<()> {
    write_text(output, &text[..used.min(text.len())])
}
