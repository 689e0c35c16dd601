// The lines of document 01's listing as text, each written at a place of a lent buffer.
#![tactic(auto)]

ghost use Rattle.std.specs.Prelude.{◌≡◌, ◌+◌, ◌-◌, ◌≤◌, length};
ghost use Rattle.std.proofs.lemmas.List.Edits.{sets};
ghost use Rattle.lines.specs.Text.{line_text, stopped_text, spent_text, shown_text, text_put};
ghost use Rattle.lines.specs.Pieces.{number_room, ended_number, text_laid};

// What a line says of a record: its number, the answer, the offset, and the depth and `len` after it.
// The answer is a number here: the listing prints it.
#[derive(Clone, Copy)]
pub struct Line {
    pub number: u64,
    pub answer: u64,
    pub offset: u64,
    pub depth: u64,
    pub len: u64,
}

// As many bytes as a line can have: five numbers of at most 20 digits, each with a blank or the line's end behind it.
pub const LONGEST_LINE: usize = 105;

// What stands behind a number: a blank, and a newline at the end of a line.
const BLANK: u8 = b' ';

const NEWLINE: u8 = b'\n';

// Writes a record's line at a place of a buffer and hands back the place behind it. Where fewer than LONGEST_LINE bytes are left, nothing is written.
// The place stands beside the buffer, as `text_put` says where the text lies. Three texts of other parts, so three functions.
pub fn write_line(out: &mut [u8], at: usize, line: Line) -> usize
    ensures { shown_text result out.new ≡ text_put out.old at (line_text line) }
{
    if out.len().saturating_sub(at) < LONGEST_LINE {
        return at;
    }
    let second = put_number(out, at, line.number, BLANK);
    let third = put_number(out, second, line.answer, BLANK);
    let fourth = put_number(out, third, line.offset, BLANK);
    let fifth = put_number(out, fourth, line.depth, BLANK);
    put_number(out, fifth, line.len, NEWLINE)
}

// Writes, likewise, the line of a record for which the fuel does not suffice: its number and its cost.
pub fn write_stopped(out: &mut [u8], at: usize, number: u64, cost: u64) -> usize
    ensures { shown_text result out.new ≡ text_put out.old at (stopped_text number cost) }
{
    if out.len().saturating_sub(at) < LONGEST_LINE {
        return at;
    }
    let first = put(out, at, b"stopped ");
    let second = put_number(out, first, number, BLANK);
    put_number(out, second, cost, NEWLINE)
}

// Writes, likewise, the last line: the fuel that was spent.
pub fn write_spent(out: &mut [u8], at: usize, spent: u64) -> usize
    ensures { shown_text result out.new ≡ text_put out.old at (spent_text spent) }
{
    if out.len().saturating_sub(at) < LONGEST_LINE {
        return at;
    }
    let first = put(out, at, b"spent ");
    put_number(out, first, spent, NEWLINE)
}

// Writes a number and the byte that ends it, and hands back the place behind them.
fn put_number(out: &mut [u8], at: usize, n: u64, end: u8) -> usize
    requires { at + number_room ≤ length out.old }
    ensures out_after { shown_text result out.new ≡ text_laid out.old at (ended_number n end) }
    ensures upper_bound { result ≤ at + number_room }
{
    let mut digits = [0u8; 20];
    let count = io::decimal(n, &mut digits);
    let behind = put(out, at, &digits[..count]);
    out[behind] = end;
    behind + 1
}

// Writes bytes from a place on, and hands back the place behind them.
fn put(out: &mut [u8], at: usize, text: &[u8]) -> usize
    requires { at + length text.now ≤ length out.old }
    ensures value { result ≡ at + length text.now }
    ensures out_after { out.new ≡ sets out.old at text.now }
{
    let behind = at + text.len();
    out[at..behind].copy_from_slice(text);
    behind
}
