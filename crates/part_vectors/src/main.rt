// Runs the host part: its answer, the parts that are lent, and a routine called over them. The expected lines (stdout) are those
// of a plain reading of document 01 (rust/beside/src/programs); none is taken from a run of this program.
#![tactic(auto)]

mod parts;
mod say;

use std::io;

fn main(rt: HostRuntime) -> io::Result<()> {
    parts::run(&rt)
}
