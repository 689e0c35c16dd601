// The C face: whole traces replayed. The run goes in and out by value, and what a trace leaves as it was comes back number for number.
#![tactic(auto)]

mod flagged;
mod tapes;
mod traces;

pub use tapes::{CFed, CTape, cattlecleat_feed, cattlecleat_finish};
pub use traces::{CRun, cattlecleat_replay};
