// A reader: it holds a lent trace and a place in it, and hands out one request after another. The decoder of the crate request does the work.
// A Reader is an iterator too; `next_two` has plain parameters.
#![tactic(auto)]

ghost use Rattle.std.specs.Prelude.{◌≡◌, ⊤};
ghost use Rattle.std.specs.Iterator.{YieldsFirst, item_count, MakesProgress};
ghost use Rattle.request.specs.Walk.{shown_next, next_at};
ghost use Rattle.reader.specs.Held.{reader_on, passed, entries_ahead, shown_two, nexts_at};

use record::BadRecord;
use request::{next_request, place_after};
use rules::Request;

// Any place is one (`reader_on`), so the rest of the bytes does not stand for it.
#[derive(Clone, Copy)]
pub struct Reader<'a> {
    pub bytes: &'a [u8],
    pub at: usize,
}

#[derive(Clone, Copy)]
pub struct Two {
    pub first: Option<(Result<Request, BadRecord>, usize)>,
    pub second: Option<(Result<Request, BadRecord>, usize)>,
}

// A reader of the lent bytes, at a place of them: 0 is their beginning.
pub fn reader_at<'a>(bytes: &'a [u8], at: usize) -> Reader<'a>
    ensures { result ≡ reader_on bytes.entry at }
{
    Reader { bytes, at }
}

// What stands next: a request, bytes that are none (10), or nothing, at the end.
pub fn hand_out<'a>(r: Reader<'a>) -> Option<(Result<Request, BadRecord>, usize)>
    ensures { shown_next result ≡ next_at r.entry.bytes.now r.entry.at }
{
    next_request(r.bytes, r.at)
}

// The reader past what stands next. From the end on it stands at the end.
pub fn advance<'a>(r: Reader<'a>) -> Reader<'a>
    ensures { result ≡ passed r.entry }
{
    let next = place_after(r.bytes, r.at);
    Reader {
        bytes: r.bytes,
        at: next,
    }
}

// Hands out what stands next, and moves the lent reader past it.
pub fn take_request<'s, 'a>(r: &'s mut Reader<'a>) -> Option<(Result<Request, BadRecord>, usize)>
    ensures { (shown_next result ≡ next_at r.old.bytes.now r.old.at) × (r.new ≡ passed r.old) }
{
    let bytes = r.bytes;
    let at = r.at;
    let n = next_request(bytes, at);
    r.at = place_after(bytes, at);
    n
}

// A reader hands out what each record says, in order, and then nothing more.
impl<'a> Iterator for Reader<'a> {
    type Item = Result<Request, BadRecord>;

    ghost next_gives = { YieldsFirst entries_ahead };

    ghost remaining = { item_count entries_ahead };

    fn next(&mut self) -> Option<Result<Request, BadRecord>>
        ensures { (YieldsFirst entries_ahead self.old result self.new) × (MakesProgress (λ _. ⊤) (item_count entries_ahead) self.old result self.new) × (self.new ≡ passed self.old) }
    {
        let (entry, _) = take_request(self)?;
        Some(entry)
    }
}

// The two that stand next, from a place of the lent bytes.
pub fn next_two(bytes: &[u8], at: usize) -> Two
    ensures { shown_two result ≡ nexts_at bytes.now at }
{
    let r = reader_at(bytes, at);
    let first = hand_out(r);
    let second = hand_out(advance(r));
    Two { first, second }
}
