// A line as numbers. The first is a word of at most eight small letters, its bytes as one number. Blanks and ':' part numbers; '-' is two zeros, as 0:0
// is; a number is decimal and below 10^19, or 0x and hexadecimal; '|' parts groups, '#' begins a comment.
use crate::fault::Fault;
use crate::tokens::{BAR, MISSING};

// What is being read: nothing, a comment, a number to the base of ten or sixteen, or a word.
#[derive(Clone, Copy, PartialEq, Eq)]
enum Kind {
    Between,
    Comment,
    Decimal,
    Hex,
    Word,
}

// So many numbers are read; what is being read, and its value so far; what is wrong, the last of it.
#[derive(Drop)]
struct Reading<'a> {
    tokens: &'a mut [u64],
    n: usize,
    kind: Kind,
    value: u64,
    fault: Option<Fault>,
}

// How many numbers the line has, whose last byte is the end of a line.
pub fn read_line(tokens: &mut [u64], line: &[u8]) -> Result<usize, Fault> {
    let mut reading = Reading {
        tokens,
        n: 0,
        kind: Kind::Between,
        value: 0,
        fault: None,
    };
    for byte in line {
        if *byte == b'\n' {
            return reading.ended();
        }
        reading.feed(*byte);
    }
    Err(Fault::Unended)
}

impl Reading<'_> {
    fn ended(&mut self) -> Result<usize, Fault> {
        self.close();
        match self.fault {
            Some(fault) => Err(fault),
            None => Ok(self.n),
        }
    }

    fn fail(&mut self, fault: Fault) {
        self.fault = Some(fault);
    }

    fn feed(&mut self, b: u8) {
        if self.kind == Kind::Comment {
            return;
        }
        match b {
            b'0'..=b'9' => self.digit(b - b'0'),
            b'a'..=b'z' => self.letter(b),
            _ => {
                self.close();
                self.mark(b);
            }
        }
    }

    // What stands between numbers.
    fn mark(&mut self, b: u8) {
        match b {
            b' ' | b':' => (),
            b'#' => self.kind = Kind::Comment,
            b'|' => self.push(BAR),
            b'-' => {
                self.push(0);
                self.push(0);
            }
            _ => self.fail(Fault::BadToken),
        }
    }

    // The number that was being read is put behind those before it.
    fn close(&mut self) {
        match self.kind {
            Kind::Between | Kind::Comment => (),
            Kind::Decimal | Kind::Hex | Kind::Word => match self.value {
                BAR | MISSING => self.fail(Fault::BadToken),
                value => self.push(value),
            },
        }
    }

    fn push(&mut self, value: u64) {
        match self.tokens.get_mut(self.n) {
            Some(room) => *room = value,
            None => return self.fail(Fault::TooMany),
        }
        self.n = self.n.wrapping_add(1);
        self.kind = Kind::Between;
        self.value = 0;
    }

    // The first of a line is a word, and no word has a digit.
    fn digit(&mut self, d: u8) {
        match self.kind {
            Kind::Between => {
                if self.n == 0 {
                    return self.fail(Fault::BadToken);
                }
                self.kind = Kind::Decimal;
                self.value = d as u64;
            }
            Kind::Decimal => self.append(10, 1_000_000_000_000_000_000, d),
            Kind::Hex => self.append(16, 1 << 60, d),
            Kind::Comment | Kind::Word => self.fail(Fault::BadToken),
        }
    }

    fn letter(&mut self, b: u8) {
        match self.kind {
            Kind::Between => {
                if self.n != 0 {
                    return self.fail(Fault::BadToken);
                }
                self.kind = Kind::Word;
                self.value = b as u64;
            }
            Kind::Word => self.append(256, 1 << 56, b),
            Kind::Decimal => self.begin_hex(b),
            Kind::Comment | Kind::Hex => match b {
                b'a'..=b'f' => self.append(16, 1 << 60, b - b'a' + 10),
                _ => self.fail(Fault::BadToken),
            },
        }
    }

    // The 'x' behind a 0.
    fn begin_hex(&mut self, b: u8) {
        if b == b'x' && self.value == 0 {
            self.kind = Kind::Hex;
        } else {
            self.fail(Fault::BadToken);
        }
    }

    // A digit more, where the value has room for one.
    fn append(&mut self, base: u64, room_below: u64, digit: u8) {
        if self.value < room_below {
            self.value = self.value.wrapping_mul(base).wrapping_add(digit as u64);
        } else {
            self.fail(Fault::TooLarge);
        }
    }
}
