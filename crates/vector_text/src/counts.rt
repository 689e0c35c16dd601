// Where a run stands, and what it has counted.

// The file, by the number of its argument; the lines up to here; those with a word; numbers compared, numbers that differ, lines that could not be read.
#[derive(Clone, Copy)]
pub struct Counts {
    pub file: usize,
    pub lines: u64,
    pub entries: u64,
    pub compared: u64,
    pub differ: u64,
    pub bad: u64,
}

impl Counts {
    // Nothing yet, of a file.
    pub fn none_of(file: usize) -> Counts {
        Counts {
            file,
            lines: 0,
            entries: 0,
            compared: 0,
            differ: 0,
            bad: 0,
        }
    }

    // A file that could not be read.
    pub fn unread(file: usize) -> Counts {
        Counts {
            bad: 1,
            ..Counts::none_of(file)
        }
    }

    // An entry more, with so many numbers.
    pub fn enter(&mut self, compared: u64, differ: u64) {
        self.entries = self.entries.wrapping_add(1);
        self.compared = self.compared.wrapping_add(compared);
        self.differ = self.differ.wrapping_add(differ);
    }

    // Both together, at the later file.
    pub fn joined(self, later: Counts) -> Counts {
        Counts {
            file: later.file,
            lines: self.lines.wrapping_add(later.lines),
            entries: self.entries.wrapping_add(later.entries),
            compared: self.compared.wrapping_add(later.compared),
            differ: self.differ.wrapping_add(later.differ),
            bad: self.bad.wrapping_add(later.bad),
        }
    }
}
