// A stream whose reads and writes are made again where they failed only because they would have had to wait: the descriptor does not block, or a
// signal came.
use std::io::{ErrorKind, Read, Write};
use std::time::{Clock, Duration};
use std::{io, thread};

// In milliseconds.
const PAUSE: u64 = 1;

// More turns than any machine lasts, so that a loop that waits has an end.
const TURNS: u64 = 1 << 62;

#[derive(Drop)]
pub struct Patient<'a, C, S> {
    clock: &'a C,
    stream: S,
}

impl<'a, C: Clock, S> Patient<'a, C, S> {
    pub fn new(clock: &'a C, stream: S) -> Patient<'a, C, S> {
        Patient { clock, stream }
    }
}

impl<C: Clock, S: Read> Read for Patient<'_, C, S> {
    ghost remaining = { λ p. S.remaining p.stream };

    fn read(&mut self, buf: &mut [u8]) -> io::Result<usize> {
        for _ in 0..TURNS {
            match self.stream.read(buf) {
                Ok(n) => return Ok(n),
                Err(e) => {
                    if !is_worth_again(self.clock, &e) {
                        return Err(e);
                    }
                }
            }
        }
        Err(io::Error::from(ErrorKind::TimedOut))
    }
}

impl<C: Clock, S: Write> Write for Patient<'_, C, S> {
    ghost contents = { λ p. S.contents p.stream };

    fn write(&mut self, buf: &[u8]) -> io::Result<usize> {
        for _ in 0..TURNS {
            match self.stream.write(buf) {
                Ok(n) => return Ok(n),
                Err(e) => {
                    if !is_worth_again(self.clock, &e) {
                        return Err(e);
                    }
                }
            }
        }
        Err(io::Error::from(ErrorKind::TimedOut))
    }

    fn flush(&mut self) -> io::Result<()> {
        self.stream.flush()
    }
}

// Whether the call that failed just now is to be made again. One that would have had to wait is, after a pause.
fn is_worth_again(clock: &impl Clock, error: &io::Error) -> bool {
    if error.kind() == ErrorKind::WouldBlock {
        pause(clock);
        return true;
    }
    error.kind() == ErrorKind::Interrupted
}

fn pause(clock: &impl Clock) {
    thread::sleep(clock, Duration::from_millis(PAUSE));
}
