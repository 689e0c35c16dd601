// The lines of a block of records, at the start of a lent buffer.
ghost use Rattle.std.specs.Prelude.{◌≡◌, ◌≤◌, ltb, length};
ghost use Rattle.request.specs.Entries.{record_count, entries_in};
ghost use Rattle.replay.specs.Running.{running_of, replayed};
ghost use Rattle.listing.specs.Blocks.{lines_text, block_room, shown_block, block_with, block_listed, record_listed};

use lines::{LONGEST_LINE, Line, write_line};
use record::RECORD_SIZE;
use replay::{Run, run_next};

// A run after a block, with how many bytes its lines are.
#[derive(Clone, Copy)]
pub struct Listed {
    pub run: Run,
    pub used: usize,
}

// Replays a block of records and writes their lines at the start of a buffer. Where there is no room for as many of the longest lines, nothing is run.
// 0 where there is no room is what `block_listed` says, and `end_listed` for the end.
pub fn list_block(
    run: Run,
    words: &mut [u64],
    cells: &mut [u64],
    bytes: &[u8],
    out: &mut [u8],
) -> Listed
    ensures { shown_block result words.new cells.new out.new
        ≡ block_listed (running_of run words.old cells.old) bytes.now out.old }
{
    if is_narrow(out.len(), bytes.len()) {
        return Listed { run, used: 0 };
    }
    list_records(run, words, cells, bytes, out)
}

// Whether so much text has no room for the lines of so many bytes of records.
// Of one block; `is_narrow_behind` counts the held bytes too.
pub(crate) fn is_narrow(text: usize, bytes: usize) -> bool
    ensures { result ≡ ltb text (block_room (record_count bytes)) }
{
    text / LONGEST_LINE < bytes.div_ceil(RECORD_SIZE)
}

// By places: `as_chunks` hands out the short record apart, for which `list_record` would be called once more: 86 ns a record for 71.
fn list_records(
    run: Run,
    words: &mut [u64],
    cells: &mut [u64],
    bytes: &[u8],
    out: &mut [u8],
) -> Listed
    requires { block_room (record_count (length bytes.now)) ≤ length out.old }
    ensures { shown_block result words.new cells.new out.new
        ≡ block_with (replayed (running_of run words.old cells.old) bytes.now)
        (lines_text (running_of run words.old cells.old) (entries_in bytes.now)) out.old }
{
    let mut so_far = run;
    let mut used = 0;
    for k in 0..bytes.len().div_ceil(RECORD_SIZE) {
        let next = list_record(so_far, words, cells, bytes, k * RECORD_SIZE, out, used);
        if next.run.stop.is_some() {
            return next;
        }
        so_far = next.run;
        used = next.used;
    }
    Listed { run: so_far, used }
}

// One record: its line, where it was run.
fn list_record(
    run: Run,
    words: &mut [u64],
    cells: &mut [u64],
    bytes: &[u8],
    at: usize,
    out: &mut [u8],
    used: usize,
) -> Listed
    ensures { shown_block result words.new cells.new out.new
        ≡ record_listed (running_of run words.old cells.old) bytes.now at out.old used }
{
    let number = run.number;
    let turn = run_next(run, words, cells, bytes, at);
    let ran = turn.ran;
    let after = ran.run;
    if after.stop.is_some() {
        return Listed { run: after, used };
    }
    let line = Line {
        number,
        answer: ran.answer,
        offset: ran.offset,
        depth: after.state.count as u64,
        len: after.state.len as u64,
    };
    Listed {
        run: after,
        used: write_line(out, used, line),
    }
}
