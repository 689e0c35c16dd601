// A trace in blocks: a tape in its course as numbers, read and handed back.
ghost use Rattle.std.specs.Prelude.{◌≡◌};
ghost use Rattle.tape.specs.Tapes.{fed_number, feeding, end_told};
ghost use Rattle.face_replay.specs.Tapes.{tape_from, flag_back, tape_back, tape_told, fed_told, taping_from, taping_back, feeding_back};

use crate::traces::{CRun, run_back, run_from};
use record::RECORD_SIZE;
use regs::InRegister;
use tape::{AfterEnd, Tape, feed, finish};

// A tape in its course.
#[repr(C)]
#[derive(Clone, Copy)]
pub struct CTape {
    pub run: CRun,
    pub kept: [u8; RECORD_SIZE],
    pub held: usize,
    pub endflag: u64,
}

// A number, and the tape after it.
#[repr(C)]
#[derive(Clone, Copy)]
pub struct CFed {
    pub number: u64,
    pub tape: CTape,
}

// The next block of a trace. 22 for a nonempty one after an end without a stop.
pub fn cattlecleat_feed(t: CTape, words: &mut [u64], cells: &mut [u64], block: &[u8]) -> CFed
    ensures { fed_told result words.new cells.new
        ≡ feeding_back t (feeding (taping_from t words.old cells.old) block.now) }
{
    let mut tape = tape_from(t);
    let fed = feed(&mut tape, words, cells, block);
    CFed {
        number: fed_number(fed),
        tape: tape_back(t, tape),
    }
}

// The trace has ended.
pub fn cattlecleat_finish(t: CTape, words: &mut [u64], cells: &mut [u64]) -> CTape
    ensures { tape_told result words.new cells.new
        ≡ taping_back t (end_told (taping_from t words.old cells.old)) }
{
    let mut tape = tape_from(t);
    finish(&mut tape, words, cells);
    tape_back(t, tape)
}

fn fed_number(fed: Result<(), AfterEnd>) -> u64
    ensures { result ≡ fed_number fed }
{
    match fed {
        Ok(()) => 0,
        Err(AfterEnd) => 22,
    }
}

// No From, as `run_from`.
fn tape_from(c: CTape) -> Tape
    ensures { result ≡ tape_from c }
{
    let run = c.run;
    let kept = c.kept;
    Tape {
        run: run_from(run),
        kept,
        held: c.held,
        ended: bool::from_register(c.endflag),
    }
}

fn tape_back(came: CTape, t: Tape) -> CTape
    ensures { result ≡ tape_back came t }
{
    let before = came.run;
    let run = t.run;
    let kept = t.kept;
    CTape {
        run: run_back(before, run),
        kept,
        held: t.held,
        endflag: flag_back(came.endflag, t.ended),
    }
}

// As it came where it says it, else 0 or 1.
#[tactic(auto, unfolding(crate::specs::Tapes::flag_back, choice::specs::Choose::choose))]
fn flag_back(came: u64, said: bool) -> u64
    ensures { result ≡ flag_back came said }
{
    if bool::from_register(came) & said {
        return came;
    }
    said.into_register()
}
