// The ends of parts of a text, and whether one part goes on to another.
ghost use Rattle.std.specs.Prelude.{◌≡◌, ◌+◌, ◌-◌, ◌<◌, ◌≤◌, ◌++◌, take, drop, if◌then◌else◌};
ghost use Rattle.nodes.specs.Trees.{long};
ghost use Rattle.pieces.specs.Spread.{places};
ghost use Rattle.reading.specs.Joints.{joint};
ghost use Rattle.reading.specs.Spots.{spotted};

use crate::reader::Counter;
use ledger::words::Place;
use measure::Total;
use nodes::sums;
use seeking::find;

// The place `skip` behind a first one.
#[derive(Clone, Copy, PartialEq, Eq, Debug)]
pub(crate) struct Spot {
    pub(crate) first: Place,
    pub(crate) skip: usize,
}

impl Spot {
    // The index of the place, which may be too large for a usize.
    fn index(self) -> u128
        ensures { result ≡ self.first.index + self.skip }
    {
        self.first.index as u128 + self.skip as u128
    }
}

impl<'t, T: Total> Counter<'t, T> {
    // The place at an offset.
    pub(crate) fn spot_at(&self, offset: usize) -> Spot
        requires { offset < long self.now.tree.now }
        ensures { drop offset (places self.now.tree.now) ≡ spotted (Some result) ++ drop (offset + 1) (places self.now.tree.now) }
    {
        let found = find(self.tree, offset);
        Spot {
            first: found.item.piece,
            skip: found.inner,
        }
    }

    // The last of the first `offset` places.
    pub(crate) fn last_before(&self, offset: usize) -> Option<Spot>
        requires { offset ≤ long self.now.tree.now }
        ensures { spotted result ≡ drop (offset - 1) (take offset (places self.now.tree.now)) }
    {
        if offset == 0 {
            return None;
        }
        Some(self.spot_at(offset - 1))
    }

    // The first of the places behind the first `offset`.
    pub(crate) fn first_behind(&self, offset: usize) -> Option<Spot>
        requires { offset ≤ long self.now.tree.now }
        ensures { spotted result ≡ take 1 (drop offset (places self.now.tree.now)) }
    {
        if offset == sums(self.tree).length {
            return None;
        }
        Some(self.spot_at(offset))
    }
}

// Whether there are two places, and the first goes on to the second. Beside `go_on` of `pieces`, whose items have indices that
// fit.
pub(crate) fn meet(before: Option<Spot>, after: Option<Spot>) -> bool
    ensures { (if result then 1 else 0) ≡ joint (spotted before) (spotted after) }
{
    match (before, after) {
        (Some(before), Some(after)) => {
            before.first.source == after.first.source && before.index() + 1 == after.index()
        }
        _ => false,
    }
}
