// A kind of request, by its row of the table and what its record says, and the one way that a record of any kind is run: it keeps its row, its request is
// judged, the fuel is tested, and only then is anything written.
ghost use Rattle.std.specs.Prelude.{◌≡◌, ℕ, ◌+◌};
ghost use Rattle.record.specs.declared.Record.{Record};
ghost use Rattle.record.specs.Kinds.{row_of_kind};
ghost use Rattle.record.specs.Coded.{coded_row};
ghost use Rattle.rules.specs.declared.Request.{Request};
ghost use Rattle.rules.specs.declared.Asked.TheVariants.{Traced};
ghost use Rattle.rules.specs.World.{world_of};
ghost use Rattle.rules.specs.Answers.{shown_judgement, judged, shown_outcome};
ghost use Rattle.rules.specs.Rules.{tests_of, room_for, effect_in};
ghost use Rattle.request.specs.Requests.{request_in};
ghost use Rattle.replay.specs.Costs.{work_of};
ghost use Rattle.replay.specs.Packing.{running_again, went_shown};
ghost use Rattle.replay.specs.Running.{ran_on};
ghost use Rattle.replay.specs.ByKind.{entry_for};

use crate::flat::{
    Fixed, Moving, Went, refused_at, refused_for, state_again, stopped_before, went_by,
};
use record::{BAD_RECORD, KindRow, Record, keeps_row};
use rules::{Outcome, Refusal, Room, State};

// A request of one kind, by its arguments: the number of the kind, and the request that the arguments say.
pub(crate) trait Kind: Copy {
    ghost number: { ℕ };

    ghost says: { Self → Request };

    fn row() -> KindRow
        ensures { result ≡ coded_row (row_of_kind number) };

    // The request of a record that keeps the row.
    fn read(r: Record) -> Self
        requires { r.kind ≡ number }
        ensures { says result ≡ request_in r };

    fn judge(self, s: State, words: &[u64], cells: &[u64]) -> Result<Room, Refusal>
        ensures { shown_judgement result
            ≡ judged (tests_of (world_of s words.now cells.now) (Traced (says self))) (room_for (world_of s words.now cells.now) (Traced (says self))) };

    // What it costs where it is accepted.
    fn cost(self) -> u64
        ensures { result ≡ 1 + work_of (says self) };

    // The step in the room that was judged.
    fn step(self, s: State, words: &mut [u64], cells: &mut [u64], room: Room) -> Outcome
        ensures { shown_outcome result words.new cells.new ≡ effect_in (world_of s words.old cells.old) (Traced (says self)) room };
}

// A record of a kind.
pub(crate) fn run_kind<K: Kind>(
    f: Fixed,
    m: Moving,
    words: &mut [u64],
    cells: &mut [u64],
    r: Record,
) -> Went
    requires { r.kind ≡ K.number }
    ensures { went_shown f result words.new cells.new
        ≡ ran_on (running_again f m words.old cells.old) (entry_for r) }
{
    if !keeps_row(K::row(), r) {
        return refused_at(f, m, BAD_RECORD);
    }
    let q = K::read(r);
    let s = state_again(f, m);
    match q.judge(s, words, cells) {
        Err(why) => refused_for(f, m, why),
        Ok(room) => {
            let cost = q.cost();
            if f.fuel.saturating_sub(m.spent) < cost {
                return stopped_before(m, cost);
            }
            let total = m.spent + cost;
            went_by(m, q.step(s, words, cells, room), total)
        }
    }
}
