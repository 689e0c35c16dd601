// A trace that arrives in blocks of any length, replayed as it comes: between two blocks the bytes of an unfinished record are kept.
#![tactic(auto)]

mod cut;
mod feeding;
mod tape;

pub use cut::{Cut, cut_block, held_count};
pub use feeding::{feed, finish};
pub use tape::{AfterEnd, Tape, begin, hold};
