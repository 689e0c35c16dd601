// Lines of text as numbers, what they lay down, and numbers held to what they expect, for programs that run vectors. It calls nothing of the stack, and no
// library stands on it.
#![tactic(auto)]

pub mod counts;
pub mod fault;
pub mod floats;
pub mod holding;
pub mod laying;
pub mod reading;
pub mod run;
pub mod say;
pub mod sums;
pub mod tokens;
pub mod traces;
