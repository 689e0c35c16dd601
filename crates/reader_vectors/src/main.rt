// Runs the vectors of the reader. The expected lines (stdout) are those of a plain reading of document 01 (rust/beside/src/programs); none is taken
// from a run of this program.
#![tactic(auto)]

mod answers;
mod say;
mod traces;

use std::io;

fn main(rt: HostRuntime) -> io::Result<()> {
    traces::run(&rt)
}
