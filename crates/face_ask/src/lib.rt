// The C face: a stack opened, the nine requests by one door, register sync, and a host's part. The state goes in and out by value; every argument gets an
// answer. include/cattlecleat.h says what each function means.
#![tactic(auto)]

mod answers;
mod asking;
mod parts;

pub use answers::CAnswer;
pub use asking::{cattlecleat_ask, cattlecleat_open, cattlecleat_sync_registers};
pub use parts::cattlecleat_host_part;
