// What the crates of the C face share: a state, a request and a host's part as numbers, how they read and how they are told. No bool and no enum crosses
// to C, and all numbers read as something. Nothing is exported here: what a host links is the crates face_.._c, each a module of the archive.
#![tactic(auto)]

mod parts;
mod requests;
mod state;

pub use parts::{CPart, part_told};
pub use requests::{CRequest, SET};
pub use state::CState;
