// The numbers of a line. The first is its word; those before the first bar are given, those behind it expected.
ghost use Rattle.std.specs.Prelude.{◌≡◌, min};

use crate::fault::Fault;

// '|' and a number that is not there; no number of a line is one of them. Numbers, as what is found is told by numbers too and held to them one by one.
pub const BAR: u64 = 0x7c7c_7c7c_7c7c_7c7c;

pub const MISSING: u64 = 0x2121_2121_2121_2121;

const LARGEST_COUNT: u64 = 0xffff;

pub fn token(tokens: &[u64], k: usize) -> u64 {
    if k < tokens.len() {
        return tokens[k];
    }
    MISSING
}

pub fn place(tokens: &[u64], k: usize) -> usize {
    token(tokens, k) as usize
}

// One that fits; see `fit_counts`.
pub fn count(tokens: &[u64], k: usize) -> u16 {
    (token(tokens, k) % 0x1_0000) as u16
}

// N numbers from a place on.
pub fn numbers<const N: usize>(tokens: &[u64], from: usize) -> [u64; N] {
    let mut numbers = [0u64; N];
    for (i, number) in numbers.iter_mut().enumerate() {
        *number = token(tokens, from.wrapping_add(i));
    }
    numbers
}

// So many numbers from a place on are there, and fit 16 bits each.
pub fn fit_counts(tokens: &[u64], from: usize, n: usize) -> Result<(), Fault> {
    for i in 0..n {
        if LARGEST_COUNT < token(tokens, from.wrapping_add(i)) {
            return Err(Fault::TooLarge);
        }
    }
    Ok(())
}

// The line has so many numbers.
pub fn has_length(tokens: &[u64], n: usize) -> Result<(), Fault> {
    if tokens.len() == n {
        Ok(())
    } else {
        Err(Fault::WrongCount)
    }
}

// A part of a buffer of so many places ends within it.
pub fn ends_within(len: usize, end: usize) -> Result<(), Fault> {
    if end <= len {
        Ok(())
    } else {
        Err(Fault::Outside)
    }
}

// The lesser: how many are there, where so many are lent of so many.
pub fn least(a: usize, b: usize) -> usize
    ensures { result ≡ min a b }
{
    a.min(b)
}
