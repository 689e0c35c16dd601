// What requests look at before they do anything: number 9, of the state and of the frames that are read, and the newest frame's start.
ghost use Rattle.std.specs.Prelude.{◌≡◌, ◌&&◌, ◌+◌, ◌-◌, ltb};
ghost use Rattle.frames.specs.Rows.{row_at, broken_row};
ghost use Rattle.rules.specs.World.{world_of, from_top, newest_start};
ghost use Rattle.rules.specs.Broken.{broken_state, broken_top, broken_next};

use frames::{is_broken, read_row, too_few_words};
use rules::State;

// The largest depth limit, in frames.
pub(crate) const MAX_DEPTH: usize = 65_536;
// The largest height limit, and the most cells that may be lent.
pub(crate) const MAX_CELLS: usize = 1_048_576;

// The place of the `k`-th newest of `count` frames, 0 where there are not so many.
// 0 for none is what `from_top` of World says, and `newest_start` below.
pub fn from_top(count: usize, k: usize) -> usize
    ensures { result ≡ from_top count k }
{
    count.saturating_sub(k)
}

// Whether the state is broken (9): a limit, a length, or what it says of the lent buffers. Where the lengths agree, those of the buffers stand for the
// state's own: behind this test the compiler then knows that the rows are there, and leaves out what `frames` tests.
pub fn is_broken_state(s: State, words: &[u64], cells: &[u64]) -> bool
    ensures { result ≡ broken_state (world_of s words.now cells.now) }
{
    let depth = s.depth;
    let height = s.height;
    let own_words = s.words;
    let own_cells = s.cells;
    let count = s.count;
    let len = s.len;
    let few = too_few_words(words.len(), depth);
    (words.len() != own_words)
        | ((cells.len() != own_cells)
            | ((MAX_DEPTH < depth)
                | ((MAX_CELLS < height)
                    | ((MAX_CELLS < cells.len())
                        | (few | ((depth < count) | ((cells.len() < len) | (height < len))))))))
}

// Whether the state or the newest frame is broken (9). The row is read behind the test of the state, not beside it, for the same reason.
pub fn is_broken_top(s: State, words: &[u64], cells: &[u64]) -> bool
    ensures { result ≡ broken_top (world_of s words.now cells.now) }
{
    let depth = s.depth;
    let count = s.count;
    let len = s.len;
    if is_broken_state(s, words, cells) {
        return true;
    }
    is_broken_at(words, depth, count, 0, len)
}

// Whether the state, the newest frame or the next one is broken (9).
pub fn is_broken_next(s: State, words: &[u64], cells: &[u64]) -> bool
    ensures { result ≡ broken_next (world_of s words.now cells.now) }
{
    let depth = s.depth;
    let count = s.count;
    let len = s.len;
    if is_broken_state(s, words, cells) {
        return true;
    }
    if is_broken_at(words, depth, count, 0, len) {
        return true;
    }
    is_broken_at(words, depth, count, 1, len)
}

// Whether there is a frame with so many above it, and its row is broken.
fn is_broken_at(words: &[u64], depth: usize, count: usize, above: usize, len: usize) -> bool
    ensures { result ≡ (ltb above count && broken_row (row_at depth words.now (count - (above + 1))) len) }
{
    if count <= above {
        return false;
    }
    is_broken(read_row(words, depth, count - above - 1), len)
}

// The start of the newest of `count` frames, 0 without frames.
pub fn top_start(words: &[u64], depth: usize, count: usize) -> usize
    ensures { result ≡ newest_start depth words.now count }
{
    if count == 0 {
        return 0;
    }
    let top = read_row(words, depth, count - 1);
    top.start as usize
}
