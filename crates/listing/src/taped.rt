// The lines of a block of a tape, and of its end, at the start of a lent buffer.
ghost use Rattle.std.specs.Prelude.{◌≡◌, ◌++◌, ◌+◌, ◌/◌, ◌≤◌, min, ltb, length};
ghost use Rattle.record.specs.Form.{record_size};
ghost use Rattle.request.specs.Entries.{record_count};
ghost use Rattle.replay.specs.Running.{running_of};
ghost use Rattle.tape.specs.Tapes.{most_held, held_bytes, taping_of};
ghost use Rattle.listing.specs.Blocks.{block_room, shown_block};
ghost use Rattle.listing.specs.Taped.{refused_as_fed, lines_out, both_listed, cut_listed, shown_lines, list_feeding, list_telling};

use crate::block::{Listed, is_narrow, list_block};
use lines::LONGEST_LINE;
use record::RECORD_SIZE;
use replay::Run;
use tape::{AfterEnd, Tape, cut_block, held_count, hold};

// Why nothing is listed: 22 as of `feed`, or 19, where the lines have no room.
#[derive(Clone, Copy)]
pub enum LinesError {
    AfterEnd,
    NoRoom,
}

impl From<AfterEnd> for LinesError {
    ghost from_gives = { λ _ e. e ≡ refused_as_fed };

    fn from(_why: AfterEnd) -> LinesError {
        LinesError::AfterEnd
    }
}

// The next block, and how many bytes its lines are. 22 as `feed`; then 19 where the buffer has no room for as many of the longest lines as there are
// whole records: nothing is run.
pub fn list_feed(
    t: &mut Tape,
    words: &mut [u64],
    cells: &mut [u64],
    block: &[u8],
    out: &mut [u8],
) -> Result<usize, LinesError>
    ensures { shown_lines result t.new words.new cells.new out.new
        ≡ list_feeding (taping_of t.old words.old cells.old) block.now out.old }
{
    if t.rests(block)? {
        return Ok(0);
    }
    if is_narrow_behind(out.len(), t.held, block.len()) {
        return Err(LinesError::NoRoom);
    }
    Ok(list_cut(t, words, cells, block, out))
}

// Whether so much text has no room for the lines of the whole records of held bytes and of so many that come.
fn is_narrow_behind(text: usize, held: usize, bytes: usize) -> bool
    ensures { result ≡ ltb text (block_room ((min held most_held + bytes) / record_size)) }
{
    let own = bytes / RECORD_SIZE;
    let completed = (held_count(held) + bytes % RECORD_SIZE) / RECORD_SIZE;
    text / LONGEST_LINE < own + completed
}

// A block, cut: the lines of its whole records, and the rest is held.
fn list_cut(
    t: &mut Tape,
    words: &mut [u64],
    cells: &mut [u64],
    block: &[u8],
    out: &mut [u8],
) -> usize
    requires { block_room ((length (held_bytes t.old.kept t.old.held) + length block.now) / record_size) ≤ length out.old }
    ensures { lines_out 0 result (taping_of t.new words.new cells.new) out.new
        ≡ cut_listed (running_of t.old.run words.old cells.old) (held_bytes t.old.kept t.old.held ++ block.now) out.old }
{
    let cut = cut_block(t.kept, t.held, block);
    let listed = list_both(
        t.run,
        words,
        cells,
        &cut.first[..cut.first_count()],
        &block[cut.from..cut.to],
        out,
    );
    *t = hold(listed.run, cut.rest, cut.left);
    listed.used
}

// The record that a block completes, then its own whole records: the lines of these behind that one's.
fn list_both(
    run: Run,
    words: &mut [u64],
    cells: &mut [u64],
    first: &[u8],
    own: &[u8],
    out: &mut [u8],
) -> Listed
    requires { block_room (record_count (length first.now) + record_count (length own.now)) ≤ length out.old }
    ensures { shown_block result words.new cells.new out.new
        ≡ both_listed (running_of run words.old cells.old) first.now own.now out.old }
{
    let one = list_block(run, words, cells, first, out);
    let used = one.used;
    let more = list_block(one.run, words, cells, own, &mut out[used..]);
    Listed {
        run: more.run,
        used: used + more.used,
    }
}

// The trace has ended: held bytes are a short record. 19 where the buffer has no room for the longest line.
pub fn list_finish(
    t: &mut Tape,
    words: &mut [u64],
    cells: &mut [u64],
    out: &mut [u8],
) -> Result<usize, LinesError>
    ensures { shown_lines result t.new words.new cells.new out.new
        ≡ list_telling (taping_of t.old words.old cells.old) out.old }
{
    let run = t.run;
    let stop = run.stop;
    if stop.is_some() | t.ended {
        return Ok(0);
    }
    let held = held_count(t.held);
    if is_narrow(out.len(), held) {
        return Err(LinesError::NoRoom);
    }
    let listed = list_block(run, words, cells, &t.kept[..held], out);
    *t = Tape {
        run: listed.run,
        kept: [0; RECORD_SIZE],
        held: 0,
        ended: true,
    };
    Ok(listed.used)
}
