// How deep a tree is, and the bound on that for a red-black tree.
// That a tree is weighed and fits is required, for the tree itself, a recursive type, has no ghost field.
ghost use Rattle.std.specs.Prelude.{◌≡◌, ℕ, ◌+◌, ◌/◌, ◌^◌, ◌<◌, ◌≤◌, length};
ghost use Rattle.nodes.specs.Trees.{items, long, Balanced, Weighed};
ghost use Rattle.seeking.specs.Depths.{deep};

use nodes::Tree;

// The places on the longest way down. Of n places, a red-black tree has at least 2 to the power of half its depth, rounded
// up, less one.
#[tactic(auto, using(crate::proofs::Shallow::depths))]
pub fn depth<P, T>(tree: &Tree<P, T>) -> usize
    requires weighed { Weighed tree.now }
    requires fits { long tree.now < 2 ^ 64 }
    ensures longest { result ≡ deep tree.now }
    ensures bound { Balanced tree.now → 2 ^ ((result + 1) / 2) ≤ length (items tree.now) + 1 }
{
    match tree {
        Tree::Empty => 0,
        Tree::Place(place) => depth(&place.left).max(depth(&place.right)) + 1,
    }
}
