// cattlecleat: replays a trace and prints document 01's listing of it.
#![tactic(auto)]

mod fault;
mod gathering;
mod limits;
mod output;
mod replaying;
mod say;
mod wait;
mod word;

use std::io::Input;
use std::process::ExitCode;
use std::time::Clock;
use word::Word;

// Status 1 where something could not be read or written. What went wrong is said on standard error, an unknown word too.
// No Result, whose Err would be printed once more.
fn main(rt: HostRuntime) -> ExitCode {
    let is_well = match word::asked(&rt) {
        Word::Replay => is_replayed(&rt),
        Word::Help => say::help(&rt).is_ok(),
        Word::Unknown => {
            say::unknown(&rt);
            true
        }
    };
    if is_well {
        ExitCode::SUCCESS
    } else {
        ExitCode::FAILURE
    }
}

// Whether the listing is whole. Where it is not, it is said why.
fn is_replayed(rt: &(impl Input + Print + Eprint + Clock)) -> bool {
    match replaying::run(rt) {
        Ok(()) => true,
        Err(why) => {
            say::failed(rt, why);
            false
        }
    }
}
