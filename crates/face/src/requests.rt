// A request as numbers: its kind in document 01, with a flag beside each number that may be missing.
ghost use Rattle.std.specs.Prelude.{◌≡◌};
ghost use Rattle.face.specs.Requests.{request_from, push_from, replace_from, host_from, return_host_from, request_to};

use record::{BadRecord, Record};
use regs::InRegister;
use rules::{HostArgs, PushArgs, ReplaceArgs, Request, ReturnHostArgs};

// The kinds, as wide as they cross to C.
const PUSH: u64 = record::PUSH as u64;

const POP: u64 = record::POP as u64;

const REPLACE: u64 = record::REPLACE as u64;

const HOST: u64 = record::HOST as u64;

const RETURN_HOST: u64 = record::RETURN_HOST as u64;

const SYNC: u64 = record::SYNC as u64;

const RESTORE: u64 = record::RESTORE as u64;

const RESET: u64 = record::RESET as u64;

pub const SET: u64 = record::SET as u64;

// A request asks by what its kind uses, and spells a record with all that it has.
#[repr(C)]
#[derive(Clone, Copy)]
pub struct CRequest {
    pub kind: u64,
    pub head: u16,
    pub params: u16,
    pub locals: u16,
    pub slots: u16,
    pub results: u16,
    pub callerflag: u64,
    pub caller: u64,
    pub callee: u64,
    pub instanceflag: u64,
    pub instance: u64,
}

// The request of a kind; none where the kind is none of the nine.
impl TryFrom<CRequest> for Request {
    type Error = BadRecord;

    ghost try_from_gives = { λ q r. r ≡ request_from q };

    #[tactic(auto, unfolding(crate::specs::Requests::request_from, choice::specs::Choose::choose))]
    fn try_from(q: CRequest) -> Result<Request, BadRecord> {
        let kind = q.kind;
        match kind {
            PUSH => Ok(Request::Push(PushArgs::from(q))),
            POP => Ok(Request::Pop(q.instance)),
            REPLACE => Ok(Request::Replace(ReplaceArgs::from(q))),
            HOST => Ok(Request::Host(HostArgs::from(q))),
            RETURN_HOST => Ok(Request::ReturnHost(ReturnHostArgs::from(q))),
            SYNC => Ok(Request::Sync(q.caller)),
            RESTORE => Ok(Request::Restore),
            RESET => Ok(Request::Reset),
            SET => Ok(Request::Set(q.head, q.callee)),
            _ => Err(BadRecord),
        }
    }
}

impl From<CRequest> for PushArgs {
    ghost from_gives = { λ q p. p ≡ push_from q };

    fn from(q: CRequest) -> PushArgs {
        PushArgs {
            caller: bool::from_register(q.callerflag).then_some(q.caller),
            callee: q.callee,
            head: q.head,
            params: q.params,
            locals: q.locals,
            slots: q.slots,
            instance: bool::from_register(q.instanceflag).then_some(q.instance),
        }
    }
}

impl From<CRequest> for ReplaceArgs {
    ghost from_gives = { λ q p. p ≡ replace_from q };

    fn from(q: CRequest) -> ReplaceArgs {
        ReplaceArgs {
            callee: q.callee,
            head: q.head,
            params: q.params,
            locals: q.locals,
            slots: q.slots,
            instance: bool::from_register(q.instanceflag).then_some(q.instance),
        }
    }
}

impl From<CRequest> for HostArgs {
    ghost from_gives = { λ q p. p ≡ host_from q };

    fn from(q: CRequest) -> HostArgs {
        HostArgs {
            caller: bool::from_register(q.callerflag).then_some(q.caller),
            head: q.head,
            params: q.params,
            results: q.results,
        }
    }
}

impl From<CRequest> for ReturnHostArgs {
    ghost from_gives = { λ q p. p ≡ return_host_from q };

    fn from(q: CRequest) -> ReturnHostArgs {
        ReturnHostArgs {
            head: q.head,
            params: q.params,
            results: q.results,
            instance: q.instance,
        }
    }
}

// The request that a record says, its flags one by one.
impl From<Record> for CRequest {
    ghost from_gives = { λ r q. q ≡ request_to r };

    fn from(r: Record) -> CRequest {
        let flags = r.flags as u64;
        CRequest {
            kind: r.kind as u64,
            head: r.head,
            params: r.params,
            locals: r.locals,
            slots: r.slots,
            results: r.results,
            callerflag: flags % 2,
            caller: r.word1,
            callee: r.word2,
            instanceflag: flags / 2 % 2,
            instance: r.word3,
        }
    }
}
