// Requests to and from trace records, and the decoder that walks a lent trace: at a place it hands out a request with the next place.
#![tactic(auto)]

mod decode;
mod encode;

ghost use Rattle.std.specs.Prelude.{◌≡◌, length};
ghost use Rattle.record.specs.Reading.{shown_write};
ghost use Rattle.request.specs.Walk.{shown_decoded, decoded, shown_next, next_at, next_place, request_written};

use decode::request_in;
pub use decode::{host_in, push_in, replace_in, return_host_in};
pub use encode::record_of;
use record::{BadRecord, RECORD_SIZE, Record, is_lawful, read_record, write_record};
use rules::Request;

// The request that a record says. Refused (10) where it breaks the rules of its kind.
pub fn request_of(r: Record) -> Result<Request, BadRecord>
    ensures { shown_decoded result ≡ decoded r }
{
    if !is_lawful(r) {
        return Err(BadRecord);
    }
    Ok(request_in(r))
}

// What stands at a place of a trace: a request, or bytes that are none (10), each with the place of the next; or nothing, at the end. A bad record is
// as long as a good one; a short last one reaches to the end.
// By a place in the bytes, any place (`next_at`): the crate reader has it as an iterator.
pub fn next_request(bytes: &[u8], at: usize) -> Option<(Result<Request, BadRecord>, usize)>
    ensures { shown_next result ≡ next_at bytes.now at }
{
    if bytes.len() <= at {
        return None;
    }
    let next = place_after(bytes, at);
    match read_record(bytes, at) {
        Ok(r) => Some((Ok(request_in(r)), next)),
        Err(BadRecord) => Some((Err(BadRecord), next)),
    }
}

// The place behind the record at a place: 40 bytes on, and no further than the end.
pub fn place_after(bytes: &[u8], at: usize) -> usize
    ensures { result ≡ next_place (length bytes.now) at }
{
    let len = bytes.len();
    if len < RECORD_SIZE {
        return len;
    }
    if len - RECORD_SIZE < at {
        return len;
    }
    at + RECORD_SIZE
}

// Writes a request's record at a place. Refused (10), with no byte changed, where fewer than 40 bytes are left.
#[tactic(auto, unfolding(crate::specs::Walk::request_written))]
pub fn write_request(bytes: &mut [u8], at: usize, q: Request) -> Result<(), BadRecord>
    ensures { shown_write result bytes.new ≡ request_written bytes.old at q }
{
    write_record(bytes, at, record_of(q))
}
