// The next block of a trace, and its end.
ghost use Rattle.std.specs.Prelude.{◌≡◌, ◌++◌};
ghost use Rattle.replay.specs.Running.{running_of, replayed};
ghost use Rattle.tape.specs.Tapes.{held_bytes, taping_of, went_through, shown_feeding, feeding, end_told};

use crate::cut::{cut_block, held_count};
use crate::tape::{AfterEnd, NO_BYTES, Tape, hold};
use replay::{Run, replay};

// The next block. 22 for a nonempty one after an end without a stop.
pub fn feed(
    t: &mut Tape,
    words: &mut [u64],
    cells: &mut [u64],
    block: &[u8],
) -> Result<(), AfterEnd>
    ensures { shown_feeding result t.new words.new cells.new
        ≡ feeding (taping_of t.old words.old cells.old) block.now }
{
    if t.rests(block)? {
        return Ok(());
    }
    *t = go_on(t, words, cells, block);
    Ok(())
}

// What a block makes whole is run, and what is left over is held.
fn go_on(t: &Tape, words: &mut [u64], cells: &mut [u64], block: &[u8]) -> Tape
    ensures { taping_of result words.new cells.new
        ≡ went_through (running_of t.now.run words.old cells.old) (held_bytes t.now.kept t.now.held ++ block.now) }
{
    let cut = cut_block(t.kept, t.held, block);
    let first = &cut.first[..cut.first_count()];
    let next = run_whole(t, words, cells, first, &block[cut.from..cut.to]);
    hold(next, cut.rest, cut.left)
}

// The record that a block completes, then its own whole records, where they lie. A replay of no bytes would cost as much as a record.
fn run_whole(t: &Tape, words: &mut [u64], cells: &mut [u64], first: &[u8], own: &[u8]) -> Run
    ensures { running_of result words.new cells.new
        ≡ replayed (replayed (running_of t.now.run words.old cells.old) first.now) own.now }
{
    if first.is_empty() {
        return replay(t.run, words, cells, own);
    }
    let once = replay(t.run, words, cells, first);
    if own.is_empty() {
        return once;
    }
    replay(once, words, cells, own)
}

// The trace has ended: held bytes are a short record.
pub fn finish(t: &mut Tape, words: &mut [u64], cells: &mut [u64])
    ensures { taping_of t.new words.new cells.new ≡ end_told (taping_of t.old words.old cells.old) }
{
    let run = t.run;
    let stop = run.stop;
    if stop.is_some() {
        return;
    }
    if t.ended {
        return;
    }
    *t = Tape {
        run: replay(run, words, cells, &t.kept[..held_count(t.held)]),
        kept: NO_BYTES,
        held: 0,
        ended: true,
    };
}
