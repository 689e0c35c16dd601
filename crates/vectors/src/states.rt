// A state as the numbers that a line tells, and back: D, M, words, L, count, len, flag and number of the current instance, the integer register, and
// the bits of the two floats.
// No From: the structs are of the face's crates, and an array is nobody's.
use face::CState;
use face_leaves::cattlecleat_read_registers;
use regs::Registers;
use vector_text::floats::{double_bits, double_of, single_bits, single_of};

pub fn state_of(s: [u64; 11]) -> CState {
    let [
        depth,
        height,
        words,
        cells,
        count,
        len,
        currentflag,
        current,
        ireg,
        single,
        double,
    ] = s;
    CState {
        depth: depth as usize,
        height: height as usize,
        words: words as usize,
        cells: cells as usize,
        count: count as usize,
        len: len as usize,
        currentflag,
        current,
        regs: registers_of(ireg, single, double),
    }
}

pub fn state_told(s: CState) -> [u64; 11] {
    let r = cattlecleat_read_registers(s);
    [
        s.depth as u64,
        s.height as u64,
        s.words as u64,
        s.cells as u64,
        s.count as u64,
        s.len as u64,
        s.currentflag,
        s.current,
        r.ireg,
        single_bits(r.freg32),
        double_bits(r.freg64),
    ]
}

pub fn registers_of(ireg: u64, single: u64, double: u64) -> Registers {
    Registers::stored(ireg, single_of(single), double_of(double))
}
