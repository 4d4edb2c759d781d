// Joining: two trees and a place between them become one tree.
ghost use Rattle.std.specs.Prelude.{◌≡◌, ℕ, ◌+◌, ◌^◌, ◌<◌, ◌≤◌, true, false, List, [], ◌∷◌, ◌++◌, ◌⊎◌};
ghost use Rattle.nodes.specs.Trees.{items, long, red, blacks, Balanced, Bare, Fair, Legal, LeansLeft, LeansRight, Summed, Weighed};

use crate::types::PieceTree;
use balance::{join_left, join_right};
use measure::Total;
use nodes::{Colour, Node, Tree, blacken, is_red};

impl<P: Copy, T: Total> PieceTree<P, T> {
    // The tree of no pieces.
    pub fn empty() -> Self
        ensures items { items result.tree ≡ [] }
        ensures long { long result.tree ≡ 0 }
        ensures summed { Summed T.neutral T.joined result.tree }
    {
        PieceTree {
            tree: Tree::Empty,
            height: 0,
        }
    }

    // The tree of one place.
    pub fn single(place: Box<Node<P, T>>) -> Self
        requires bare { Bare place.value }
        requires fair { Fair place.value.item }
        requires fits { place.value.item.length < 2 ^ 64 }
        ensures items { items result.tree ≡ place.value.item ∷ [] }
        ensures long { long result.tree ≡ place.value.item.length }
        ensures summed { Summed T.neutral T.joined result.tree }
    {
        Self::empty().push_back(place)
    }

    // A place before this tree.
    pub fn push_front(self, place: Box<Node<P, T>>) -> Self
        requires bare { Bare place.value }
        requires fair { Fair place.value.item }
        requires fits { place.value.item.length + long self.tree < 2 ^ 64 }
        ensures items { items result.tree ≡ place.value.item ∷ items self.tree }
        ensures long { long result.tree ≡ place.value.item.length + long self.tree }
        ensures summed { Summed T.neutral T.joined self.tree → Summed T.neutral T.joined result.tree }
    {
        Self::empty().join(place, self)
    }

    // A place behind this tree.
    pub fn push_back(self, place: Box<Node<P, T>>) -> Self
        requires bare { Bare place.value }
        requires fair { Fair place.value.item }
        requires fits { long self.tree + place.value.item.length < 2 ^ 64 }
        ensures items { items result.tree ≡ items self.tree ++ place.value.item ∷ [] }
        ensures long { long result.tree ≡ long self.tree + place.value.item.length }
        ensures summed { Summed T.neutral T.joined self.tree → Summed T.neutral T.joined result.tree }
    {
        self.join(place, Self::empty())
    }

    // A raw tree as a piece tree: its height is counted.
    pub fn from_tree(tree: Tree<P, T>) -> Self
        requires weighed { Weighed tree }
        requires balanced { Balanced tree }
        requires fits { long tree < 2 ^ 64 }
        ensures { result.tree ≡ tree }
    {
        let height = black_height(&tree);
        PieceTree { tree, height }
    }

    // The tree with its top place painted black.
    pub(crate) fn blackened(tree: Tree<P, T>, height: usize) -> Self
        requires weighed { Weighed tree }
        requires fits { long tree < 2 ^ 64 }
        requires tall { height ≡ blacks tree }
        requires leans { (Legal tree) ⊎ ((LeansRight tree) ⊎ (LeansLeft tree)) }
        ensures items { items result.tree ≡ items tree }
        ensures long { long result.tree ≡ long tree }
        ensures summed { Summed T.neutral T.joined tree → Summed T.neutral T.joined result.tree }
    {
        let height = if is_red(&tree) { height + 1 } else { height };
        PieceTree {
            tree: blacken(tree),
            height,
        }
    }

    // This tree, a place and the right tree as one.
    pub fn join(self, place: Box<Node<P, T>>, right: Self) -> Self
        requires bare { Bare place.value }
        requires fair { Fair place.value.item }
        requires fits { long self.tree + place.value.item.length + long right.tree < 2 ^ 64 }
        ensures items { items result.tree ≡ items self.tree ++ place.value.item ∷ items right.tree }
        ensures long { long result.tree ≡ long self.tree + place.value.item.length + long right.tree }
        ensures summed { Summed T.neutral T.joined self.tree → Summed T.neutral T.joined right.tree → Summed T.neutral T.joined result.tree }
    {
        if self.height >= right.height {
            let height = self.height;
            let tree = join_right(place, self.tree, self.height, right.tree, right.height);
            Self::blackened(tree, height)
        } else {
            let height = right.height;
            let tree = join_left(place, self.tree, self.height, right.tree, right.height);
            Self::blackened(tree, height)
        }
    }
}

// The black height of a tree: the black places on the way down its left side.
fn black_height<P, T>(tree: &Tree<P, T>) -> usize
    requires weighed { Weighed tree.now }
    requires fits { long tree.now < 2 ^ 64 }
    ensures { result ≡ blacks tree.now }
{
    match tree {
        Tree::Empty => 0,
        Tree::Place(place) => match place.colour {
            Colour::Red => black_height(&place.left),
            Colour::Black => black_height(&place.left) + 1,
        },
    }
}
