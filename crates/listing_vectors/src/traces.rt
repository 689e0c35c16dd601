// A trace from data/.
ghost use Rattle.std.specs.Io.{ReadsAtMost};

use crate::say;
use std::io::Read;
use std::rt::Files;
use std::{fs, io};

// Its bytes at the start of a buffer, and how many they are; none where there is no such file.
pub fn read(rt: &(impl Files + Print), name: &str, bytes: &mut [u8]) -> io::Result<usize>
    ensures { ReadsAtMost result bytes.new }
{
    match fs::open(rt, name) {
        Ok(mut file) => read_full(&mut file, bytes),
        Err(_) => {
            say::missing(rt)?;
            Ok(0)
        }
    }
}

// As many bytes as there are, or as there is room for. As in vectors: nothing else stands on vector_text (docs/DECISIONS.md).
// A while: each read says how far it came, and `read_exact` refuses a shorter file.
fn read_full(file: &mut impl Read, bytes: &mut [u8]) -> io::Result<usize>
    ensures { ReadsAtMost result bytes.new }
{
    let mut done = 0;
    while done < bytes.len() {
        let more = file.read(&mut bytes[done..])?;
        if more == 0 {
            break;
        }
        done += more;
    }
    Ok(done)
}
