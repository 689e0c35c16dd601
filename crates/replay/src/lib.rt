// Replay: a trace run with fuel on a stack over two lent buffers, record by record or whole.
#![tactic(auto)]

mod calls;
mod cost;
mod flat;
mod hosts;
mod kind;
mod run;
mod simple;
mod trace;
mod turn;

pub use cost::cost_of;
pub use run::{Ran, Run, run_record, start};
pub use trace::{Turn, replay, run_next};
