// Text on standard output, written whole unless a write fails.
ghost use Rattle.std.specs.Prelude.{ℕ, take, OnOk, OnErr};
ghost use Rattle.std.specs.Io.KnownBytes.{Appends};

use std::io;
use std::io::{ErrorKind, Write};

// Where a write fails, the text is written up to there: std's `write_all` says nothing of that, so the loop stands here.
pub fn write_text<W: Write>(output: &mut W, text: &[u8]) -> io::Result<()>
    ensures ok { OnOk result (Appends (W.contents output.old) (W.contents output.new) text.now) }
    ensures err { OnErr result ((n : ℕ) × Appends (W.contents output.old) (W.contents output.new) (take n text.now)) }
{
    let mut done = 0;
    while done < text.len() {
        let more = output.write(&text[done..])?;
        if more == 0 {
            return Err(io::Error::from(ErrorKind::WriteZero));
        }
        done += more;
    }
    Ok(())
}
