// Floats by their bits. The logic has one NaN: each NaN's pattern makes one, and each NaN is told by the quiet NaN's pattern.
use crate::tokens::token;

const LARGEST_SINGLE: u64 = 0xffff_ffff;

const QUIET_NAN_32: u32 = 0x7fc0_0000;

const QUIET_NAN_64: u64 = 0x7ff8_0000_0000_0000;

// Of the low 32 bits.
// Singles and doubles apart: std has no trait of both.
pub fn single_of(n: u64) -> f32 {
    let bits = (n % 0x1_0000_0000) as u32;
    single_of_bits(bits)
}

fn single_of_bits(bits: u32) -> f32 {
    if 0x7f80_0000 < bits % 0x8000_0000 {
        return 0.0 / 0.0;
    }
    f32::from_bits(bits)
}

pub fn double_of(bits: u64) -> f64 {
    if 0x7ff0_0000_0000_0000 < bits % 0x8000_0000_0000_0000 {
        return 0.0 / 0.0;
    }
    f64::from_bits(bits)
}

pub fn single_bits(x: f32) -> u64 {
    u64::from(bits_of_single(x))
}

fn bits_of_single(x: f32) -> u32 {
    if x != x {
        return QUIET_NAN_32;
    }
    f32::to_bits(x)
}

pub fn double_bits(x: f64) -> u64 {
    if x != x {
        return QUIET_NAN_64;
    }
    f64::to_bits(x)
}

// Whether the number at a place of a line fits an f32's bits.
pub fn is_single(tokens: &[u64], k: usize) -> bool {
    token(tokens, k) <= LARGEST_SINGLE
}
