// The record at a place, by its kind: one match on the kind, and in each arm its row of the table is known to the compiler.
ghost use Rattle.std.specs.Prelude.{◌≡◌, ◌<◌, length};
ghost use Rattle.request.specs.Entries.{entry_at};
ghost use Rattle.replay.specs.ByKind.{entry_for};
ghost use Rattle.replay.specs.Packing.{running_again, went_shown};
ghost use Rattle.replay.specs.Running.{ran_on};

use crate::calls::PopArgs;
use crate::flat::{Fixed, Moving, Went, refused_at};
use crate::kind::run_kind;
use crate::simple::{ResetArgs, RestoreArgs, SetArgs, SyncArgs};
use record::{
    BAD_RECORD, BadRecord, HOST, POP, PUSH, REPLACE, RESET, RESTORE, RETURN_HOST, Record, SET,
    SYNC, read_fields,
};
use rules::{HostArgs, PushArgs, ReplaceArgs, ReturnHostArgs};

// The record at a place before the end.
pub(crate) fn turn(
    f: Fixed,
    m: Moving,
    words: &mut [u64],
    cells: &mut [u64],
    bytes: &[u8],
    at: usize,
) -> Went
    requires { at < length bytes.now }
    ensures { went_shown f result words.new cells.new
        ≡ ran_on (running_again f m words.old cells.old) (entry_at bytes.now at) }
{
    match read_fields(bytes, at) {
        Ok(r) => kind_turn(f, m, words, cells, r),
        Err(BadRecord) => refused_at(f, m, BAD_RECORD),
    }
}

pub(crate) fn kind_turn(
    f: Fixed,
    m: Moving,
    words: &mut [u64],
    cells: &mut [u64],
    r: Record,
) -> Went
    ensures { went_shown f result words.new cells.new
        ≡ ran_on (running_again f m words.old cells.old) (entry_for r) }
{
    match r.kind {
        PUSH => run_kind::<PushArgs>(f, m, words, cells, r),
        POP => run_kind::<PopArgs>(f, m, words, cells, r),
        REPLACE => run_kind::<ReplaceArgs>(f, m, words, cells, r),
        HOST => run_kind::<HostArgs>(f, m, words, cells, r),
        RETURN_HOST => run_kind::<ReturnHostArgs>(f, m, words, cells, r),
        SYNC => run_kind::<SyncArgs>(f, m, words, cells, r),
        RESTORE => run_kind::<RestoreArgs>(f, m, words, cells, r),
        RESET => run_kind::<ResetArgs>(f, m, words, cells, r),
        SET => run_kind::<SetArgs>(f, m, words, cells, r),
        _ => refused_at(f, m, BAD_RECORD),
    }
}
