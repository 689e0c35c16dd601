// The request that a lawful record says.
ghost use Rattle.std.specs.Prelude.{◌≡◌};
ghost use Rattle.request.specs.Requests.{caller_in, instance_in, push_in, replace_in, host_in, return_host_in, request_in};

use record::{HOST, POP, PUSH, REPLACE, RESET, RESTORE, RETURN_HOST, Record, SYNC};
use rules::{HostArgs, PushArgs, ReplaceArgs, Request, ReturnHostArgs};

pub(crate) fn request_in(r: Record) -> Request
    ensures { result ≡ request_in r }
{
    let kind = r.kind;
    match kind {
        PUSH => Request::Push(push_in(r)),
        POP => Request::Pop(r.word3),
        REPLACE => Request::Replace(replace_in(r)),
        HOST => Request::Host(host_in(r)),
        RETURN_HOST => Request::ReturnHost(return_host_in(r)),
        SYNC => Request::Sync(r.word1),
        RESTORE => Request::Restore,
        RESET => Request::Reset,
        _ => Request::Set(r.head, r.word2),
    }
}

// No From here: Record and the arguments stand in other crates. Each line names the field that it is read from.
pub fn push_in(r: Record) -> PushArgs
    ensures { result ≡ push_in r }
{
    PushArgs {
        caller: caller_in(r),
        callee: r.word2,
        head: r.head,
        params: r.params,
        locals: r.locals,
        slots: r.slots,
        instance: instance_in(r),
    }
}

pub fn replace_in(r: Record) -> ReplaceArgs
    ensures { result ≡ replace_in r }
{
    ReplaceArgs {
        callee: r.word2,
        head: r.head,
        params: r.params,
        locals: r.locals,
        slots: r.slots,
        instance: instance_in(r),
    }
}

pub fn host_in(r: Record) -> HostArgs
    ensures { result ≡ host_in r }
{
    HostArgs {
        caller: caller_in(r),
        head: r.head,
        params: r.params,
        results: r.results,
    }
}

pub fn return_host_in(r: Record) -> ReturnHostArgs
    ensures { result ≡ return_host_in r }
{
    ReturnHostArgs {
        head: r.head,
        params: r.params,
        results: r.results,
        instance: r.word3,
    }
}

// The caller ip and the instance, where their flags are set.
fn caller_in(r: Record) -> Option<u64>
    ensures { result ≡ caller_in r }
{
    (r.flags % 2 == 1).then_some(r.word1)
}

fn instance_in(r: Record) -> Option<u64>
    ensures { result ≡ instance_in r }
{
    (r.flags / 2 % 2 == 1).then_some(r.word3)
}
