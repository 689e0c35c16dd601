// Arguments as they lie: up to four counts of 16 bits in the first word, the lowest first, then a word for each number, with the flag of one that may be
// missing before it.
ghost use Rattle.std.specs.Prelude.{◌≡◌};
ghost use Rattle.face_place.specs.Args.{push_held, replace_held, host_held, return_host_held, host_frame_held};

use cells::HostFrame;
use regs::InRegister;
use rules::{HostArgs, PushArgs, ReplaceArgs, ReturnHostArgs};

// What a word is divided by for its second, third and fourth count.
const SECOND: u64 = 0x1_0000;

const THIRD: u64 = 0x1_0000_0000;

const FOURTH: u64 = 0x1_0000_0000_0000;

// No From: arrays, and structs of other crates. Each pattern names the words.
pub(crate) fn push_held(q: &[u64; 6]) -> PushArgs
    ensures { result ≡ push_held q.now }
{
    let [counts, caller_flag, caller, callee, flag, instance] = *q;
    PushArgs {
        caller: bool::from_register(caller_flag).then_some(caller),
        callee,
        head: u16::from_register(counts),
        params: u16::from_register(counts / SECOND),
        locals: u16::from_register(counts / THIRD),
        slots: u16::from_register(counts / FOURTH),
        instance: bool::from_register(flag).then_some(instance),
    }
}

pub(crate) fn replace_held(q: &[u64; 4]) -> ReplaceArgs
    ensures { result ≡ replace_held q.now }
{
    let [counts, callee, flag, instance] = *q;
    ReplaceArgs {
        callee,
        head: u16::from_register(counts),
        params: u16::from_register(counts / SECOND),
        locals: u16::from_register(counts / THIRD),
        slots: u16::from_register(counts / FOURTH),
        instance: bool::from_register(flag).then_some(instance),
    }
}

pub(crate) fn host_held(q: &[u64; 3]) -> HostArgs
    ensures { result ≡ host_held q.now }
{
    let [counts, flag, caller] = *q;
    HostArgs {
        caller: bool::from_register(flag).then_some(caller),
        head: u16::from_register(counts),
        params: u16::from_register(counts / SECOND),
        results: u16::from_register(counts / THIRD),
    }
}

pub(crate) fn return_host_held(q: &[u64; 2]) -> ReturnHostArgs
    ensures { result ≡ return_host_held q.now }
{
    let [counts, instance] = *q;
    ReturnHostArgs {
        head: u16::from_register(counts),
        params: u16::from_register(counts / SECOND),
        results: u16::from_register(counts / THIRD),
        instance,
    }
}

// A host's frame has its counts in the last word.
pub(crate) fn host_frame_held(frame: &[u64; 3]) -> HostFrame
    ensures { result ≡ host_frame_held frame.now }
{
    let [start, end, counts] = *frame;
    HostFrame {
        start: start as usize,
        end: end as usize,
        params: u16::from_register(counts),
        results: u16::from_register(counts / SECOND),
    }
}
