// A tape in its course, by value.
ghost use Rattle.std.specs.Prelude.{◌≡◌};
ghost use Rattle.tape.specs.Tapes.{rests_told, tape_begun, tape_holds};

use record::RECORD_SIZE;
use replay::Run;

// A replay in its course, the bytes of an unfinished record with how many they are, and whether the end was told. Every value has its meaning: more
// than 39 held bytes count as 39.
// Forty bytes with how many are held: no heap, and C hands it by value.
#[derive(Clone, Copy)]
pub struct Tape {
    pub run: Run,
    pub kept: [u8; RECORD_SIZE],
    pub held: usize,
    pub ended: bool,
}

// Why a block is refused, with 22: it is not empty, and the end was told without a stop.
#[derive(Clone, Copy)]
pub struct AfterEnd;

impl Tape {
    // Whether nothing is run of a block: after a stop, and of an empty one. Else it is refused after an end.
    pub fn rests(&self, block: &[u8]) -> Result<bool, AfterEnd>
        ensures { result ≡ rests_told self.now block.now }
    {
        let run = self.run;
        let stop = run.stop;
        if stop.is_some() | (block.len() == 0) {
            return Ok(true);
        }
        if self.ended {
            return Err(AfterEnd);
        }
        Ok(false)
    }
}

pub(crate) const NO_BYTES: [u8; RECORD_SIZE] = [0; RECORD_SIZE];

// A tape that begins.
pub fn begin(run: Run) -> Tape
    ensures { result ≡ tape_begun run }
{
    Tape {
        run,
        kept: NO_BYTES,
        held: 0,
        ended: false,
    }
}

// The tape after the whole records of a block, with the bytes that were left over. After a stop they are dropped.
pub fn hold(run: Run, rest: [u8; RECORD_SIZE], left: usize) -> Tape
    ensures { result ≡ tape_holds run rest left }
{
    let stop = run.stop;
    if stop.is_some() {
        return begin(run);
    }
    Tape {
        run,
        kept: rest,
        held: left,
        ended: false,
    }
}
