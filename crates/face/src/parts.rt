// A host's part of the cells, by offset and length: its parameters and the cells for its results begin at one place.
ghost use Rattle.std.specs.Prelude.{◌≡◌};
ghost use Rattle.rules.specs.World.{world_of};
ghost use Rattle.face.specs.Parts.{part_with, frame_lent, part_told};

use cells::{HostFrame, host_size};
use rules::State;
use stack_hosts::judge_host_part;

#[repr(C)]
#[derive(Clone, Copy)]
pub struct CPart {
    pub number: u64,
    pub offset: usize,
    pub params: usize,
    pub results: usize,
}

// Where a host's part lies. 9, 11. An empty part is at 0.
pub fn part_told(s: State, words: &[u64], cells: &[u64], frame: HostFrame) -> CPart
    ensures { result ≡ part_told (world_of s words.now cells.now) frame }
{
    match judge_host_part(s, words, cells, frame) {
        Err(why) => part(u64::from(why), 0, 0, 0),
        Ok(_) => frame_lent(frame),
    }
}

#[tactic(auto, unfolding(crate::specs::Parts::frame_lent, choice::specs::Choose::choose))]
fn frame_lent(frame: HostFrame) -> CPart
    ensures { result ≡ frame_lent frame }
{
    let params = frame.params;
    let size = host_size(params, frame.results);
    if size == 0 {
        return part(0, 0, 0, 0);
    }
    part(0, frame.start, params as usize, size)
}

fn part(number: u64, offset: usize, params: usize, results: usize) -> CPart
    ensures { result ≡ part_with number offset params results }
{
    CPart {
        number,
        offset,
        params,
        results,
    }
}
