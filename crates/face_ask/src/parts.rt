// A host's part of the cells, with the state by value.
ghost use Rattle.std.specs.Prelude.{◌≡◌};
ghost use Rattle.rules.specs.World.{world_of};
ghost use Rattle.face.specs.States.{state_from};
ghost use Rattle.face.specs.Parts.{part_told};

use cells::HostFrame;
use face::{CPart, CState, part_told};
use rules::State;

// Where a host's part lies. 9, 11. An empty part is at 0.
pub fn cattlecleat_host_part(s: CState, words: &[u64], cells: &[u64], frame: HostFrame) -> CPart
    ensures { result ≡ part_told (world_of (state_from s) words.now cells.now) frame }
{
    part_told(State::from(s), words, cells, frame)
}
