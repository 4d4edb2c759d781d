// What a piece tree is made of: places in boxes, each with an item and the sums of what hangs below it.
ghost use Rattle.std.specs.Prelude.{◌≡◌, ℕ, ◌+◌, ◌^◌, ◌<◌, ◌≤◌};
ghost use Rattle.nodes.specs.Trees.{Bare, Fair};

use measure::Total;

#[derive(Clone, Copy, PartialEq, Eq, Debug)]
pub enum Colour {
    Red,
    Black,
}

// A piece with what it has of its own: how many elements, how many breaks among them, and their total.
// That it is fair is no ghost field, for `fill` and `draw` take any item.
#[derive(Clone, Copy, PartialEq, Eq, Debug)]
pub struct Item<P, T> {
    pub piece: P,
    pub length: usize,
    pub breaks: usize,
    pub total: T,
}

// What some neighbouring pieces have together.
// That breaks and pieces are no more than elements is no ghost field, for `sums` reads them off any tree, weighed or not.
#[derive(Clone, Copy, PartialEq, Eq, Debug)]
pub struct Sums<T> {
    pub length: usize,
    pub breaks: usize,
    pub pieces: usize,
    pub total: T,
}

impl<T: Total> Sums<T> {
    // What no pieces have.
    pub fn none() -> Self
        ensures length { result.length ≡ 0 }
        ensures breaks { result.breaks ≡ 0 }
        ensures pieces { result.pieces ≡ 0 }
        ensures total { result.total ≡ T.neutral }
    {
        Sums {
            length: 0,
            breaks: 0,
            pieces: 0,
            total: T::empty(),
        }
    }

    // What some pieces, an item after them, and some more pieces after that have together.
    pub fn join<P>(self, item: &Item<P, T>, after: Self) -> Self
        requires fair { Fair item.now }
        requires breaks { (self.breaks ≤ self.length) × (after.breaks ≤ after.length) }
        requires pieces { (self.pieces ≤ self.length) × (after.pieces ≤ after.length) }
        requires fits { self.length + item.now.length + after.length < 2 ^ 64 }
        ensures length { result.length ≡ self.length + item.now.length + after.length }
        ensures breaks { result.breaks ≡ self.breaks + item.now.breaks + after.breaks }
        ensures pieces { result.pieces ≡ self.pieces + 1 + after.pieces }
        ensures total { result.total ≡ T.joined (T.joined self.total item.now.total) after.total }
    {
        Sums {
            length: self.length + item.length + after.length,
            breaks: self.breaks + item.breaks + after.breaks,
            pieces: self.pieces + 1 + after.pieces,
            total: self.total.join(item.total).join(after.total),
        }
    }
}

// The pieces of a text in its order: first those on the left, then the place's own, then those on the right.
// An enum of its own: over an Option<Box<Node>> each definition by recursion stands twice, for an option and for a side.
#[cycle(tree)]
#[derive(Drop)]
#[derive_where(Default)]
pub enum Tree<P, T> {
    #[default]
    Empty,
    Place(Box<Node<P, T>>),
}

// A place of the tree. The sums are of all pieces at and below it.
// A recursive type has no ghost field, so that a place is bare, or a tree weighed, stands in each contract.
#[cycle(tree)]
#[derive(Drop)]
pub struct Node<P, T> {
    pub colour: Colour,
    pub left: Tree<P, T>,
    pub item: Item<P, T>,
    pub right: Tree<P, T>,
    pub sums: Sums<T>,
}

impl<P, T: Total> Node<P, T> {
    // A place in no tree.
    pub(crate) fn bare(item: Item<P, T>) -> Self
        ensures bare { Bare result }
        ensures item { result.item ≡ item }
    {
        Node {
            colour: Colour::Red,
            left: Tree::Empty,
            item,
            right: Tree::Empty,
            sums: Sums::none(),
        }
    }
}
