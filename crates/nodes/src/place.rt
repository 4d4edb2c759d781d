// Single places: put together over two sides, taken apart, painted, and read.
ghost use Rattle.std.specs.Prelude.{◌≡◌, ℕ, ◌+◌, ◌^◌, ◌<◌, ◌≤◌, true, false, List, ◌∷◌, ◌++◌, if◌then◌else◌};
ghost use Rattle.nodes.specs.Trees.{items, long, broken, placed, whole, red, ruddy, weight, blacks, Bare, Calm, Fair, Legal, LeansLeft, LeansRight, Summed, Weighed};

use crate::types::{Colour, Node, Sums, Tree};
use measure::Total;

// What all pieces of a tree have together.
pub fn sums<P: Copy, T: Total>(tree: &Tree<P, T>) -> Sums<T>
    ensures length { result.length ≡ long tree.now }
    ensures breaks { result.breaks ≡ broken tree.now }
    ensures pieces { result.pieces ≡ placed tree.now }
    ensures total { result.total ≡ whole T.neutral tree.now }
{
    match tree {
        Tree::Empty => Sums::none(),
        Tree::Place(place) => place.sums,
    }
}

// Whether a tree's top place is red.
pub fn is_red<P, T>(tree: &Tree<P, T>) -> bool
    ensures { result ≡ red tree.now }
{
    matches!(tree, Tree::Place(place) if place.colour == Colour::Red)
}

// The place over two sides, with the sums of all three in the order of the text.
#[tactic(auto, using(crate::proofs::Bounds::within))]
pub fn link<P: Copy, T: Total>(
    mut place: Box<Node<P, T>>,
    colour: Colour,
    left: Tree<P, T>,
    right: Tree<P, T>,
) -> Tree<P, T>
    requires bare { Bare place.value }
    requires fair { Fair place.value.item }
    requires left_weighed { Weighed left }
    requires right_weighed { Weighed right }
    requires fits { long left + place.value.item.length + long right < 2 ^ 64 }
    ensures items { items result ≡ items left ++ place.value.item ∷ items right }
    ensures long { long result ≡ long left + place.value.item.length + long right }
    ensures weighed { Weighed result }
    ensures summed { Summed T.neutral T.joined left → Summed T.neutral T.joined right → Summed T.neutral T.joined result }
    ensures colour { red result ≡ ruddy colour }
    ensures blacks { blacks result ≡ weight colour + blacks left }
    ensures legal { blacks left ≡ blacks right → Calm colour left → Calm colour right → Legal left → Legal right
        → Legal result }
    ensures leans_right { blacks left ≡ blacks right → Calm colour left → Legal left → Legal right → LeansRight result }
    ensures leans_left { blacks left ≡ blacks right → Calm colour right → Legal left → Legal right → LeansLeft result }
{
    place.sums = sums(&left).join(&place.item, sums(&right));
    place.colour = colour;
    place.left = left;
    place.right = right;
    Tree::Place(place)
}

// A place taken from its two sides.
pub fn unlink<P: Copy, T: Total>(
    mut place: Box<Node<P, T>>,
) -> (Box<Node<P, T>>, Tree<P, T>, Tree<P, T>)
    ensures bare { Bare result.0.value }
    ensures item { result.0.value.item ≡ place.value.item }
    ensures left { result.1 ≡ place.value.left }
    ensures right { result.2 ≡ place.value.right }
{
    let left = std::mem::take(&mut place.left);
    let right = std::mem::take(&mut place.right);
    (place, left, right)
}

// The tree with its top place painted black.
pub fn blacken<P: Copy, T: Total>(tree: Tree<P, T>) -> Tree<P, T>
    ensures items { items result ≡ items tree }
    ensures long { long result ≡ long tree }
    ensures weighed { Weighed tree → Weighed result }
    ensures summed { Summed T.neutral T.joined tree → Summed T.neutral T.joined result }
    ensures colour { red result ≡ false }
    ensures blacks { blacks result ≡ blacks tree + (if red tree then 1 else 0) }
    ensures legal { Legal tree → Legal result }
    ensures leant_right { LeansRight tree → Legal result }
    ensures leant_left { LeansLeft tree → Legal result }
{
    match tree {
        Tree::Empty => Tree::Empty,
        Tree::Place(mut place) => {
            place.colour = Colour::Black;
            Tree::Place(place)
        }
    }
}
