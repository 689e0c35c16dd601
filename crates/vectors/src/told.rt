// What the C face answers, as the numbers that a line tells behind its bar.
// No From: the structs are of the face's crates, and an array is nobody's.
use face::CPart;
use face_ask::CAnswer;
use face_leaves::{CDone, CRead};
use face_replay::CRun;
use vector_text::floats::{double_bits, single_bits};

pub fn answer_told(a: CAnswer) -> [u64; 11] {
    let host = a.host;
    let regs = a.regs;
    [
        a.number,
        a.offset as u64,
        a.ip,
        a.instance,
        host.start as u64,
        host.end as u64,
        host.params as u64,
        host.results as u64,
        regs.ireg,
        single_bits(regs.freg32),
        double_bits(regs.freg64),
    ]
}

pub fn part_told(p: CPart) -> [u64; 4] {
    [p.number, p.offset as u64, p.params as u64, p.results as u64]
}

pub fn run_told(r: CRun) -> [u64; 5] {
    [r.number, r.fuel, r.spent, r.stopflag, r.cost]
}

pub fn done_told(d: CDone) -> [u64; 5] {
    let reason = d.reason;
    let slot = d.slot;
    [d.number, reason.kind, reason.amount, slot.kind, slot.amount]
}

pub fn read_told(r: CRead) -> [u64; 12] {
    let q = r.request;
    [
        r.number,
        q.kind,
        q.head as u64,
        q.params as u64,
        q.locals as u64,
        q.slots as u64,
        q.results as u64,
        q.callerflag,
        q.caller,
        q.callee,
        q.instanceflag,
        q.instance,
    ]
}
