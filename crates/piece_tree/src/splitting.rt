// Splitting: a tree becomes the part before a place, the place, and the part after it.
ghost use Rattle.std.specs.Prelude.{◌≡◌, ℕ, ◌+◌, ◌^◌, ◌<◌, ◌≤◌, List, [], ◌∷◌, ◌++◌};
ghost use Rattle.nodes.specs.Trees.{items, long, Balanced, Bare, Fair, Summed, Weighed};

use crate::types::{PieceTree, Split};
use measure::Total;
use nodes::{Node, Tree, sums, unlink};

impl<P: Copy, T: Total> PieceTree<P, T> {
    // How many elements its pieces have together.
    pub fn len(&self) -> usize
        ensures { result ≡ long self.now.tree }
    {
        sums(&self.tree).length
    }

    // Splits at the piece that holds the offset: what lies before the piece, its place, the offset inside the piece, and
    // what lies after it.
    pub fn split(self, offset: usize) -> Split<P, T>
        requires within { offset < long self.tree }
        ensures items { items result.left.tree ++ result.place.value.item ∷ items result.right.tree ≡ items self.tree }
        ensures long { long result.left.tree + result.place.value.item.length + long result.right.tree ≡ long self.tree }
        ensures offset { long result.left.tree + result.inner ≡ offset }
        ensures inner { result.inner < result.place.value.item.length }
        ensures bare { Bare result.place.value }
        ensures fair { Fair result.place.value.item }
        ensures summed { Summed T.neutral T.joined self.tree → Summed T.neutral T.joined result.left.tree × Summed T.neutral T.joined result.right.tree }
    {
        let PieceTree { tree, height } = self;
        let Tree::Place(place) = tree else {
            unreachable!()
        };
        let (place, left, right) = unlink(place);
        let left = Self::blackened(left, height - 1);
        let right = Self::blackened(right, height - 1);
        let before = left.len();
        let length = place.item.length;
        if offset < before {
            let part = left.split(offset);
            Split {
                right: part.right.join(place, right),
                ..part
            }
        } else if offset - before < length {
            Split {
                left,
                place,
                inner: offset - before,
                right,
            }
        } else {
            let part = right.split(offset - before - length);
            Split {
                left: left.join(place, part.left),
                ..part
            }
        }
    }

    // The first place of a tree that has one, and the rest.
    pub fn take_first(self) -> (Box<Node<P, T>>, Self)
        requires some { 0 < long self.tree }
        ensures items { result.0.value.item ∷ items result.1.tree ≡ items self.tree }
        ensures long { result.0.value.item.length + long result.1.tree ≡ long self.tree }
        ensures bare { Bare result.0.value }
        ensures fair { Fair result.0.value.item }
        ensures summed { Summed T.neutral T.joined self.tree → Summed T.neutral T.joined result.1.tree }
    {
        let part = self.split(0);
        (part.place, part.right)
    }

    // The last place of a tree that has one, and the rest.
    pub fn take_last(self) -> (Self, Box<Node<P, T>>)
        requires some { 0 < long self.tree }
        ensures items { items result.0.tree ++ result.1.value.item ∷ [] ≡ items self.tree }
        ensures long { long result.0.tree + result.1.value.item.length ≡ long self.tree }
        ensures bare { Bare result.1.value }
        ensures fair { Fair result.1.value.item }
        ensures summed { Summed T.neutral T.joined self.tree → Summed T.neutral T.joined result.0.tree }
    {
        let length = self.len();
        let part = self.split(length - 1);
        (part.left, part.place)
    }

    // This tree, and the right one after it.
    pub fn concat(self, right: Self) -> Self
        requires fits { long self.tree + long right.tree < 2 ^ 64 }
        ensures items { items result.tree ≡ items self.tree ++ items right.tree }
        ensures long { long result.tree ≡ long self.tree + long right.tree }
        ensures summed { Summed T.neutral T.joined self.tree → Summed T.neutral T.joined right.tree → Summed T.neutral T.joined result.tree }
    {
        if right.len() == 0 {
            return self;
        }
        let (first, rest) = right.take_first();
        self.join(first, rest)
    }
}
