// Seeking by an offset and by the number of a break.
// That a tree is weighed and fits stands in each contract, for the tree itself, a recursive type, has no ghost field.
ghost use Rattle.std.specs.Prelude.{◌≡◌, ℕ, ◌+◌, ◌^◌, ◌<◌, ◌≤◌, length};
ghost use Rattle.nodes.specs.Trees.{items, long, broken, Summed, Weighed};
ghost use Rattle.seeking.specs.Seeks.{elements_in, breaks_in, total_of, Stands};

use crate::count::{Breaks, Count, Elements};
use crate::types::Found;
use measure::Total;
use nodes::{Sums, Tree, sums};

// What all pieces of a tree have together.
#[tactic(auto, using(crate::proofs::Standing::summing))]
pub fn summary<P: Copy, T: Total>(tree: &Tree<P, T>) -> Sums<T>
    requires weighed { Weighed tree.now }
    ensures elements { result.length ≡ elements_in (items tree.now) }
    ensures breaks { result.breaks ≡ breaks_in (items tree.now) }
    ensures pieces { result.pieces ≡ length (items tree.now) }
    ensures total { Summed T.neutral T.joined tree.now → result.total ≡ total_of T.neutral T.joined (items tree.now) }
{
    sums(tree)
}

// The piece that holds the offset, and the offset inside it.
pub fn find<P: Copy, T: Total>(tree: &Tree<P, T>, offset: usize) -> Found<P, T>
    requires weighed { Weighed tree.now }
    requires within { offset < long tree.now }
    requires fits { long tree.now < 2 ^ 64 }
    ensures stands { Stands T.neutral T.joined tree.now result }
    ensures offset { result.before.length + result.inner ≡ offset }
    ensures inner { result.inner < result.item.length }
    ensures ends { result.before.length + result.item.length ≤ long tree.now }
    ensures few { (result.before.breaks ≤ result.before.length) × (result.before.pieces ≤ result.before.length) }
{
    seek::<Elements, _, _>(tree, offset)
}

// The piece that holds the break of this number, counted from 0, and the number of the break among those of the piece.
pub fn find_break<P: Copy, T: Total>(tree: &Tree<P, T>, number: usize) -> Found<P, T>
    requires weighed { Weighed tree.now }
    requires within { number < broken tree.now }
    requires fits { long tree.now < 2 ^ 64 }
    ensures stands { Stands T.neutral T.joined tree.now result }
    ensures number { result.before.breaks + result.inner ≡ number }
    ensures inner { result.inner < result.item.breaks }
    ensures ends { result.before.length + result.item.length ≤ long tree.now }
    ensures few { (result.before.breaks ≤ result.before.length) × (result.before.pieces ≤ result.before.length) }
{
    seek::<Breaks, _, _>(tree, number)
}

// The piece that holds what is sought by a count, and how much of the count lies before that inside the piece.
#[tactic(auto, using(nodes::proofs::Bounds::within))]
fn seek<C: Count, P: Copy, T: Total>(tree: &Tree<P, T>, sought: usize) -> Found<P, T>
    requires weighed { Weighed tree.now }
    requires within { sought < C.counted (long tree.now) (broken tree.now) }
    requires fits { long tree.now < 2 ^ 64 }
    ensures stands { Stands T.neutral T.joined tree.now result }
    ensures sought { C.counted result.before.length result.before.breaks + result.inner ≡ sought }
    ensures inner { result.inner < C.counted result.item.length result.item.breaks }
    ensures ends { result.before.length + result.item.length ≤ long tree.now }
    ensures few { (result.before.breaks ≤ result.before.length) × (result.before.pieces ≤ result.before.length) }
{
    match tree {
        Tree::Empty => unreachable!(),
        Tree::Place(place) => {
            let before = sums(&place.left);
            let passed = C::of(before.length, before.breaks);
            let held = C::of(place.item.length, place.item.breaks);
            if sought < passed {
                seek::<C, _, _>(&place.left, sought)
            } else if sought - passed < held {
                Found {
                    item: place.item,
                    inner: sought - passed,
                    before,
                }
            } else {
                let found = seek::<C, _, _>(&place.right, sought - passed - held);
                Found {
                    before: before.join(&place.item, found.before),
                    ..found
                }
            }
        }
    }
}
