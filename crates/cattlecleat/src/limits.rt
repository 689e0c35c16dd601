// Document 01's numbers for the program, and the sizes of its two blocks.
use lines::LONGEST_LINE;
use record::RECORD_SIZE;

// M in bytes, D in frames, and the fuel.
pub const HEIGHT: usize = 32768;

pub const DEPTH: usize = 64;

pub const FUEL: u64 = 1000000;

// Lent: four words a frame, and L cells.
pub const WORDS: usize = 256;

pub const CELLS: usize = 4096;

// How many records' bytes one read gives at most. With fewer bytes than a record held they are no more records: the text has room for as many of the
// longest lines, and behind them for the last lines, of a short record, of a stop and of the sum.
const RECORDS: usize = 1600;

pub const BLOCK: usize = RECORDS * RECORD_SIZE;

pub const LAST_LINES: usize = 3 * LONGEST_LINE;

pub const TEXT: usize = RECORDS * LONGEST_LINE + LAST_LINES;

// More reads than the fuel can last: each gives a byte at least, RECORD_SIZE bytes are a record, and a record costs at least 1.
pub const READS: u64 = (FUEL + 1) * RECORD_SIZE as u64;
