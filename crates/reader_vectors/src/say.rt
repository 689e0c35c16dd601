// Lines of output: a title that says what is asked, then numbers with a blank between.
// The same stands in part_vectors, as docs/DECISIONS.md has it: there is no library of what programs print.
use std::io;

pub fn title(rt: &impl Print, words: &str) -> io::Result<()> {
    println!(rt; "{words}")
}

// Each number with a blank before it, but for the first.
pub fn row(rt: &impl Print, numbers: &[u64]) -> io::Result<()> {
    let mut before = "";
    for number in numbers {
        print!(rt; "{before}{number}")?;
        before = " ";
    }
    println!(rt)
}
