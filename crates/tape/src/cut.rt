// Where a block is cut: the record that it completes, its own whole records, and the bytes left over.
ghost use Rattle.std.specs.Prelude.{◌≡◌, ◌+◌, ◌≤◌, min, length};
ghost use Rattle.std.proofs.lemmas.List.Edits.{sets};
ghost use Rattle.tape.specs.Tapes.{most_held, held_bytes};
ghost use Rattle.tape.specs.Cuts.{first_count, cut_of, cut_behind};

use crate::tape::NO_BYTES;
use record::RECORD_SIZE;

// `first` is the record that was unfinished, whole now where `from` is not 0: so many bytes of the block are in it. The block's own whole records lie from
// `from` up to `to`, and `left` bytes of `rest` begin another: those behind them, or where no record was completed all that are there.
// The cut record in its forty bytes, as in a tape.
#[derive(Clone, Copy)]
pub struct Cut {
    pub first: [u8; RECORD_SIZE],
    pub from: usize,
    pub to: usize,
    pub rest: [u8; RECORD_SIZE],
    pub left: usize,
}

impl Cut {
    // How many bytes of `first` are run: none where no record was completed.
    pub fn first_count(&self) -> usize
        ensures { result ≡ first_count self.now }
    {
        if self.from == 0 { 0 } else { RECORD_SIZE }
    }
}

// Cuts a block that comes behind held bytes.
pub fn cut_block(kept: [u8; RECORD_SIZE], held: usize, block: &[u8]) -> Cut
    ensures { result ≡ cut_of (held_bytes kept held) block.now }
{
    let h = held_count(held);
    if h == 0 {
        return cut_from(NO_BYTES, block, 0);
    }
    let missing = RECORD_SIZE - h;
    if block.len() < missing {
        let left = h + block.len();
        let begun = put_bytes(NO_BYTES, 0, &kept[..h]);
        return Cut {
            first: NO_BYTES,
            from: 0,
            to: 0,
            rest: put_bytes(begun, h, block),
            left,
        };
    }
    cut_from(put_bytes(kept, h, &block[..missing]), block, missing)
}

// More than 39 count as 39.
pub fn held_count(held: usize) -> usize
    ensures { result ≡ min held most_held }
{
    held.min(RECORD_SIZE - 1)
}

// Behind the bytes that went into the first record.
fn cut_from(first: [u8; RECORD_SIZE], block: &[u8], from: usize) -> Cut
    requires { from ≤ length block.now }
    ensures { result ≡ cut_behind first from block.now }
{
    let left = (block.len() - from) % RECORD_SIZE;
    let to = block.len() - left;
    Cut {
        first,
        from,
        to,
        rest: put_bytes(NO_BYTES, 0, &block[to..]),
        left,
    }
}

// Bytes at a place of forty.
fn put_bytes(into: [u8; RECORD_SIZE], at: usize, bytes: &[u8]) -> [u8; RECORD_SIZE]
    requires { at + length bytes.now ≤ 40 }
    ensures { result ≡ sets into at bytes.now }
{
    let mut out = into;
    out[at..at + bytes.len()].copy_from_slice(bytes);
    out
}
