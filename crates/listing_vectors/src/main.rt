// Runs traces from data/ with a given fuel and prints their listings, three records a block; then as tapes, in blocks of any length. The expected
// lines (stdout) are those of a plain reading of documents 01 and 02 (rust/beside/src/programs); none is taken from a run of this program.
#![tactic(auto)]

mod blocks;
mod parts;
mod say;
mod steps;
mod traces;

use std::io;
use std::rt::Files;

const ENOUGH: u64 = 1000000;

fn main(rt: HostRuntime) -> io::Result<()> {
    // Document 01's example, with its fuel, with exactly what it costs, and with less.
    show_with(&rt, "worked.trace", &[ENOUGH, 8, 7, 3, 2, 0])?;
    // No record, a short last one, and nothing but a short one.
    show_with(&rt, "empty.trace", &[ENOUGH, 0])?;
    show_with(&rt, "short.trace", &[ENOUGH, 6, 5])?;
    show_with(&rt, "only_short.trace", &[1, 0])?;
    show_with(&rt, "requests.trace", &[ENOUGH])?;
    show_with(&rt, "bad.trace", &[ENOUGH])?;
    show_with(&rt, "deep.trace", &[ENOUGH])?;
    // Costs 4, 1, 3 and 3: a fuel that suffices exactly, and one less, for each.
    show_with(&rt, "fuel.trace", &[0, 3, 4, 5, 7, 8, 10, 11, 12])?;
    blocks::show(&rt)
}

fn show_with(rt: &(impl Files + Print), name: &str, fuels: &[u64]) -> io::Result<()> {
    for fuel in fuels {
        show(rt, name, *fuel)?;
    }
    Ok(())
}

// The first lines are those of `tape` in blocks.rt: what follows them is all that either is.
fn show(rt: &(impl Files + Print), name: &str, fuel: u64) -> io::Result<()> {
    say::title(rt, name, fuel)?;
    let mut bytes = [0u8; 8000];
    let n = traces::read(rt, name, &mut bytes)?;
    parts::list(rt, &bytes[..n], fuel)
}
