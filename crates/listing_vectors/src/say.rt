// What is printed beside the listings, and how a text goes out.
use std::io;

pub fn title(rt: &impl Print, name: &str, fuel: u64) -> io::Result<()> {
    println!(rt; "{name}, fuel {fuel}")
}

// Each is one println: one function of both would be println itself.
pub fn missing(rt: &impl Print) -> io::Result<()> {
    println!(rt; "cannot be opened")
}

pub fn in_blocks(rt: &impl Print) -> io::Result<()> {
    println!(rt; "in blocks")
}

// What comes next and how much text is lent; behind it stands the answer.
pub fn block(rt: &impl Print, bytes: usize, room: usize) -> io::Result<()> {
    print!(rt; "block {bytes} {room} ")
}

pub fn end(rt: &impl Print, room: usize) -> io::Result<()> {
    print!(rt; "end {room} ")
}

pub fn answer(rt: &impl Print, refusal: u64, bytes: &[u8], used: usize) -> io::Result<()> {
    println!(rt; "{refusal} {used}")?;
    text(rt, bytes, used)
}

// The first bytes of a text, cut here, so that no caller cuts.
pub fn text(rt: &impl Print, bytes: &[u8], used: usize) -> io::Result<()> {
    rt.write_all(&bytes[..used.min(bytes.len())])
}
