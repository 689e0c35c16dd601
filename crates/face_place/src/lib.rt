// The C face with the state in place: one function for each request, which takes a state, its arguments and a host's frame as they lie in memory, as
// words, and hands back a small answer. Every word means something, so every argument gets an answer. include/cattlecleat.h says what each function
// means, and which of its structs these words are.
// Each entry point is four lines: as closures for one that all share they would be three.
#![tactic(auto)]

mod answers;
mod calls;
mod hosts;
mod requests;
mod state;
mod syncs;

pub use answers::{CFrame, CHosted, COffset, CReturned};
pub use calls::{cattlecleat_pop_frame, cattlecleat_push_frame, cattlecleat_replace_frame};
pub use hosts::{
    cattlecleat_host_part_in_place, cattlecleat_prepare_host_frame,
    cattlecleat_return_prepare_host_frame,
};
pub use syncs::{
    cattlecleat_reset, cattlecleat_restore_frame, cattlecleat_set, cattlecleat_sync_ip,
    cattlecleat_sync_registers_in_place,
};
