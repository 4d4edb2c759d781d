// A piece tree with what always stands of it, and what a split makes of one.
ghost use Rattle.std.specs.Prelude.{◌≡◌, ◌^◌, ◌<◌};
ghost use Rattle.nodes.specs.Trees.{long, blacks, Balanced, Weighed};
ghost use Rattle.nodes.specs.OneProof.{balanced_prop, weighed_prop};

use nodes::{Node, Tree};

// A red-black tree that carries its lengths, breaks and numbers of pieces, with its black height. Its length fits in a usize.
// That it carries its totals is an implication of each function: a tree is joined and split whether it does or not.
#[derive(Drop)]
pub struct PieceTree<P, T> {
    pub tree: Tree<P, T>,
    pub(crate) height: usize,
    pub ghost weighed: { Weighed tree } by { weighed_prop tree },
    pub ghost balanced: { Balanced tree } by { balanced_prop tree },
    pub ghost tall: { height ≡ blacks tree },
    pub ghost fits: { long tree < 2 ^ 64 },
}

// A tree split at a place, with the offset inside the place's piece.
#[derive(Drop)]
pub struct Split<P, T> {
    pub left: PieceTree<P, T>,
    pub place: Box<Node<P, T>>,
    pub inner: usize,
    pub right: PieceTree<P, T>,
}
