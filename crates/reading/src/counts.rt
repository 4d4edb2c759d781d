// Numbers of pieces.
ghost use Rattle.std.specs.Prelude.{◌≡◌, ◌+◌, ◌^◌, ◌<◌, ◌≤◌, ◌++◌, length, take, drop, if◌then◌else◌};
ghost use Rattle.ledger.specs.Places.{pieces_of, stretch};
ghost use Rattle.nodes.specs.Trees.{long};
ghost use Rattle.pieces.specs.Spread.{places};
ghost use Rattle.reading.specs.Joints.{joint};

use crate::ends::{Spot, meet};
use crate::reader::Counter;
use ledger::words::Place;
use measure::Total;
use nodes::sums;
use seeking::find;

impl<'t, T: Total> Counter<'t, T> {
    // The number of pieces of the first `offset` places.
    fn pieces_before(&self, offset: usize) -> usize
        requires within { offset ≤ long self.now.tree.now }
        ensures { result ≡ length (pieces_of (take offset (places self.now.tree.now))) }
    {
        if offset == 0 {
            return 0;
        }
        find(self.tree, offset - 1).before.pieces + 1
    }

    // The number of pieces of the places behind the first `offset`.
    // No twin of the one before it, which seeks the last place of a part: this one seeks the first of the rest.
    fn pieces_behind(&self, offset: usize) -> usize
        requires within { offset ≤ long self.now.tree.now }
        ensures { result ≡ length (pieces_of (drop offset (places self.now.tree.now))) }
    {
        let all = sums(self.tree);
        if offset == all.length {
            return 0;
        }
        all.pieces - find(self.tree, offset).before.pieces
    }

    // The number of pieces of the `count` places behind the first `offset`.
    pub fn runs_in(&self, offset: usize, count: usize) -> usize
        requires within { offset + count ≤ long self.now.tree.now }
        ensures { result ≡ length (pieces_of (take count (drop offset (places self.now.tree.now)))) }
    {
        if count == 0 {
            return 0;
        }
        self.pieces_before(offset + count) - (sums(self.tree).pieces - self.pieces_behind(offset))
    }

    // The number of pieces once a run, `count` places from a first one on, stands behind the first `offset`.
    pub fn pieces_with(&self, offset: usize, first: Place, count: usize) -> usize
        requires fits { long self.now.tree.now + 2 < 2 ^ 64 }
        requires within { offset ≤ long self.now.tree.now }
        requires some { 0 < count }
        ensures { result ≡ length (pieces_of (take offset (places self.now.tree.now) ++ (stretch first.source first.index count ++ drop offset (places self.now.tree.now)))) }
    {
        let begin = Spot { first, skip: 0 };
        let end = Spot {
            first,
            skip: count - 1,
        };
        let front = usize::from(meet(self.last_before(offset), Some(begin)));
        let back = usize::from(meet(Some(end), self.first_behind(offset)));
        self.pieces_before(offset) + 1 + self.pieces_behind(offset) - front - back
    }

    // Whether the first `offset` places go on to those behind the first `stop`, if there are any.
    #[tactic(auto, using(crate::proofs::Changes::across, crate::proofs::Changes::none_behind, crate::proofs::Counting::joint_none))]
    fn meets_across(&self, offset: usize, stop: usize) -> bool
        requires front { offset ≤ long self.now.tree.now }
        requires back { stop ≤ long self.now.tree.now }
        ensures { (if result then 1 else 0) ≡ joint (take offset (places self.now.tree.now)) (drop stop (places self.now.tree.now)) }
    {
        if stop == sums(self.tree).length {
            return false;
        }
        meet(self.last_before(offset), Some(self.spot_at(stop)))
    }

    // The number of pieces once the `count` places behind the first `offset` are taken out.
    pub fn pieces_without(&self, offset: usize, count: usize) -> usize
        requires within { offset + count ≤ long self.now.tree.now }
        ensures { result ≡ length (pieces_of (take offset (places self.now.tree.now) ++ drop (offset + count) (places self.now.tree.now))) }
    {
        let joint = usize::from(self.meets_across(offset, offset + count));
        self.pieces_before(offset) + self.pieces_behind(offset + count) - joint
    }
}
