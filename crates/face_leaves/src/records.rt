// Single records read and written as the numbers of a request.
ghost use Rattle.std.specs.Prelude.{◌≡◌, ◌<◌, ◌≤◌};
ghost use Rattle.std.specs.Bool.{then_some};
ghost use Rattle.regs.specs.Convert.{truth_of};
ghost use Rattle.record.specs.Reading.{read_at, write_number, written_number};
ghost use Rattle.request.specs.Requests.{flag_bit};
ghost use Rattle.face_leaves.specs.Spelt.{record_spelt};
ghost use Rattle.face_leaves.specs.Records.{read_told, written_by};

use face::{CRequest, SET};
use record::{BAD_RECORD, BadRecord, Record, ZERO_RECORD, read_record, write_record};

#[repr(C)]
#[derive(Clone, Copy)]
pub struct CRead {
    pub number: u64,
    pub request: CRequest,
}

// The flags of a record: a caller ip, an instance is given.
const IP_GIVEN: u8 = 1;

const INSTANCE_GIVEN: u8 = 2;

// The request of the record at a place. 10 where it breaks the rules of its kind, or fewer than 40 bytes are left.
pub fn cattlecleat_read_record(bytes: &[u8], at: usize) -> CRead
    ensures { result ≡ read_told (read_at bytes.now at) }
{
    match read_record(bytes, at) {
        Ok(r) => CRead {
            number: 0,
            request: CRequest::from(r),
        },
        Err(BadRecord) => CRead {
            number: BAD_RECORD,
            request: CRequest::from(ZERO_RECORD),
        },
    }
}

// Writes the record that the numbers spell at a place: 0. 10, with no byte changed, where it breaks the rules of its kind or fewer than 40 bytes are left.
pub fn cattlecleat_write_record(bytes: &mut [u8], at: usize, q: CRequest) -> u64
    ensures { write_number result bytes.new ≡ written_by bytes.old at q }
{
    let kind = q.kind;
    if SET < kind {
        return BAD_RECORD;
    }
    written_number(write_record(bytes, at, record_spelt(q)))
}

fn written_number(w: Result<(), BadRecord>) -> u64
    ensures { result ≡ written_number w }
{
    match w {
        Ok(()) => 0,
        Err(BadRecord) => BAD_RECORD,
    }
}

// The record that the numbers of one of the nine kinds spell: what the kind does not use is spelt too.
// No From: a CRequest is of the crate face, and a Record of record.
fn record_spelt(q: CRequest) -> Record
    requires { q.kind < 256 }
    ensures { result ≡ record_spelt q }
{
    Record {
        kind: q.kind as u8,
        flags: flag_spelt(q.callerflag, q.caller, IP_GIVEN)
            + flag_spelt(q.instanceflag, q.instance, INSTANCE_GIVEN),
        head: q.head,
        params: q.params,
        locals: q.locals,
        slots: q.slots,
        results: q.results,
        word1: q.caller,
        word2: q.callee,
        word3: q.instance,
    }
}

// What a flag of a struct counts for in the flags of a record.
fn flag_spelt(flag: u64, number: u64, bit: u8) -> u8
    ensures value { result ≡ flag_bit (then_some (truth_of flag) number) bit }
    ensures upper_bound { result ≤ bit }
{
    if flag == 0 {
        return 0;
    }
    bit
}
