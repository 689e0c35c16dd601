// The words that a line can begin with.
use vector_text::fault::Fault;

#[derive(Clone, Copy)]
pub enum Word {
    Full,
    Sums,
    State,
    Word,
    Cell,
    Trace,
    Byte,
    Tape,
    Read,
    Write,
    Into,
    From,
    Align,
    Fill,
    Take,
    Open,
    Ask,
    Record,
    Regs,
    Part,
    Replay,
    Feed,
    Finish,
    // A request, by its kind's number in the C face.
    Request(u64),
}

impl TryFrom<u64> for Word {
    type Error = Fault;

    // A word's letters are the bytes of its number.
    fn try_from(number: u64) -> Result<Word, Fault> {
        Ok(match &number.to_be_bytes() {
            b"\0\0\0\0full" => Word::Full,
            b"\0\0\0\0sums" => Word::Sums,
            b"\0\0\0state" => Word::State,
            b"\0\0\0\0word" => Word::Word,
            b"\0\0\0\0cell" => Word::Cell,
            b"\0\0\0trace" => Word::Trace,
            b"\0\0\0\0byte" => Word::Byte,
            b"\0\0\0\0tape" => Word::Tape,
            b"\0\0\0\0read" => Word::Read,
            b"\0\0\0write" => Word::Write,
            b"\0\0\0\0into" => Word::Into,
            b"\0\0\0\0from" => Word::From,
            b"\0\0\0align" => Word::Align,
            b"\0\0\0\0fill" => Word::Fill,
            b"\0\0\0\0take" => Word::Take,
            b"\0\0\0\0open" => Word::Open,
            b"\0\0\0\0\0ask" => Word::Ask,
            b"\0\0record" => Word::Record,
            b"\0\0\0\0regs" => Word::Regs,
            b"\0\0\0\0part" => Word::Part,
            b"\0\0replay" => Word::Replay,
            b"\0\0\0\0feed" => Word::Feed,
            b"\0\0finish" => Word::Finish,
            b"\0\0\0\0push" => Word::Request(1),
            b"\0\0\0\0\0pop" => Word::Request(2),
            b"\0replace" => Word::Request(3),
            b"\0\0\0\0host" => Word::Request(4),
            b"\0\0return" => Word::Request(5),
            b"\0\0\0\0sync" => Word::Request(6),
            b"\0restore" => Word::Request(7),
            b"\0\0\0reset" => Word::Request(8),
            b"\0\0\0\0\0set" => Word::Request(9),
            _ => return Err(Fault::NoSuchWord),
        })
    }
}
