// Document 01's listing: a block of a trace replayed, with its lines written into a lent buffer, and the lines at the end.
#![tactic(auto)]

mod block;
mod end;
mod taped;

pub use block::{Listed, list_block};
pub use end::list_end;
pub use taped::{LinesError, list_feed, list_finish};
