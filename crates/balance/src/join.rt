// Joining: two trees and a place between them become one tree, by black heights.
// A place and its two sides are parameters, not a struct: but for one test, each step takes them apart and calls with other parts.
ghost use Rattle.std.specs.Prelude.{◌≡◌, ◌+◌, ◌^◌, ◌<◌, ◌≤◌, true, false, ◌∷◌, ◌++◌};
ghost use Rattle.nodes.specs.Trees.{items, long, red, blacks, Bare, Fair, Legal, LeansLeft, LeansRight, Summed, Weighed};
ghost use Rattle.balance.specs.Sides.{between, reds_on, Leans, Linkable};

use crate::side::{Side, both_red, link_on, unlink_on};
use measure::Total;
use nodes::{Colour, Node, Tree, blacken};

// A black place over two sides, of which the outer one and its own outer side are red: the outer side comes to the top.
fn rotate<P: Copy, T: Total>(
    side: Side,
    place: Box<Node<P, T>>,
    inner: Tree<P, T>,
    outer: Tree<P, T>,
) -> Tree<P, T>
    requires linkable { Linkable place.value inner outer }
    requires inner_legal { Legal inner }
    requires outer_leans { Leans side outer }
    requires level { blacks inner ≡ blacks outer }
    requires reds { reds_on side outer ≡ true }
    ensures items { items result ≡ between side (items inner) place.value.item (items outer) }
    ensures long { long result ≡ long inner + place.value.item.length + long outer }
    ensures weighed { Weighed result }
    ensures summed { Summed T.neutral T.joined inner → Summed T.neutral T.joined outer → Summed T.neutral T.joined result }
    ensures blacks { blacks result ≡ 1 + blacks inner }
    ensures legal { Legal result }
{
    match outer {
        Tree::Empty => link_on(side, place, Colour::Black, inner, Tree::Empty),
        Tree::Place(top) => {
            let (top, middle, end) = unlink_on(side, top);
            let below = link_on(side, place, Colour::Black, inner, middle);
            link_on(side, top, Colour::Red, below, blacken(end))
        }
    }
}

// A black place over two sides, turned where it would stand over two red places on the outer one.
fn balance<P: Copy, T: Total>(
    side: Side,
    place: Box<Node<P, T>>,
    inner: Tree<P, T>,
    outer: Tree<P, T>,
) -> Tree<P, T>
    requires linkable { Linkable place.value inner outer }
    requires inner_legal { Legal inner }
    requires outer_leans { Leans side outer }
    requires level { blacks inner ≡ blacks outer }
    ensures items { items result ≡ between side (items inner) place.value.item (items outer) }
    ensures long { long result ≡ long inner + place.value.item.length + long outer }
    ensures weighed { Weighed result }
    ensures summed { Summed T.neutral T.joined inner → Summed T.neutral T.joined outer → Summed T.neutral T.joined result }
    ensures blacks { blacks result ≡ 1 + blacks inner }
    ensures legal { Legal result }
{
    if both_red(side, &outer) {
        rotate(side, place, inner, outer)
    } else {
        link_on(side, place, Colour::Black, inner, outer)
    }
}

// Joins a tree of the black height `tall` with a black one of the height `low`, which is no greater, down the outer side
// of the first.
fn join_on<P: Copy, T: Total>(
    side: Side,
    place: Box<Node<P, T>>,
    inner: Tree<P, T>,
    tall: usize,
    outer: Tree<P, T>,
    low: usize,
) -> Tree<P, T>
    requires linkable { Linkable place.value inner outer }
    requires inner_legal { Legal inner }
    requires outer_legal { Legal outer }
    requires outer_black { red outer ≡ false }
    requires inner_tall { tall ≡ blacks inner }
    requires outer_low { low ≡ blacks outer }
    requires falls { low ≤ tall }
    ensures items { items result ≡ between side (items inner) place.value.item (items outer) }
    ensures long { long result ≡ long inner + place.value.item.length + long outer }
    ensures weighed { Weighed result }
    ensures summed { Summed T.neutral T.joined inner → Summed T.neutral T.joined outer → Summed T.neutral T.joined result }
    ensures blacks { blacks result ≡ blacks inner }
    ensures leans { Leans side result }
    ensures legal { red inner ≡ false → Legal result }
{
    match inner {
        Tree::Empty => link_on(side, place, Colour::Red, Tree::Empty, outer),
        Tree::Place(top) => match top.colour {
            Colour::Black => {
                if tall == low {
                    return link_on(side, place, Colour::Red, Tree::Place(top), outer);
                }
                let (top, kept, open) = unlink_on(side, top);
                let grown = join_on(side, place, open, tall - 1, outer, low);
                balance(side, top, kept, grown)
            }
            Colour::Red => {
                let (top, kept, open) = unlink_on(side, top);
                let grown = join_on(side, place, open, tall, outer, low);
                link_on(side, top, Colour::Red, kept, grown)
            }
        },
    }
}

// Each side has a function of its own, one call of the one above: who joins two trees knows which is the taller.
// Joins a tree of the black height `tall` with a black one of the height `low`, which is no greater, down the right side
// of the first.
pub fn join_right<P: Copy, T: Total>(
    place: Box<Node<P, T>>,
    left: Tree<P, T>,
    tall: usize,
    right: Tree<P, T>,
    low: usize,
) -> Tree<P, T>
    requires bare { Bare place.value }
    requires fair { Fair place.value.item }
    requires left_weighed { Weighed left }
    requires right_weighed { Weighed right }
    requires fits { long left + place.value.item.length + long right < 2 ^ 64 }
    requires left_legal { Legal left }
    requires right_legal { Legal right }
    requires right_black { red right ≡ false }
    requires left_tall { tall ≡ blacks left }
    requires right_low { low ≡ blacks right }
    requires falls { low ≤ tall }
    ensures items { items result ≡ items left ++ place.value.item ∷ items right }
    ensures long { long result ≡ long left + place.value.item.length + long right }
    ensures weighed { Weighed result }
    ensures summed { Summed T.neutral T.joined left → Summed T.neutral T.joined right → Summed T.neutral T.joined result }
    ensures blacks { blacks result ≡ blacks left }
    ensures leans { LeansRight result }
    ensures legal { red left ≡ false → Legal result }
{
    join_on(Side::Right, place, left, tall, right, low)
}

// Joins a black tree of the black height `low` with one of the height `tall`, which is no smaller, down the left side of
// the second.
pub fn join_left<P: Copy, T: Total>(
    place: Box<Node<P, T>>,
    left: Tree<P, T>,
    low: usize,
    right: Tree<P, T>,
    tall: usize,
) -> Tree<P, T>
    requires bare { Bare place.value }
    requires fair { Fair place.value.item }
    requires left_weighed { Weighed left }
    requires right_weighed { Weighed right }
    requires fits { long left + place.value.item.length + long right < 2 ^ 64 }
    requires right_legal { Legal right }
    requires left_legal { Legal left }
    requires left_black { red left ≡ false }
    requires left_low { low ≡ blacks left }
    requires right_tall { tall ≡ blacks right }
    requires rises { low ≤ tall }
    ensures items { items result ≡ items left ++ place.value.item ∷ items right }
    ensures long { long result ≡ long left + place.value.item.length + long right }
    ensures weighed { Weighed result }
    ensures summed { Summed T.neutral T.joined left → Summed T.neutral T.joined right → Summed T.neutral T.joined result }
    ensures blacks { blacks result ≡ blacks right }
    ensures leans { LeansLeft result }
    ensures legal { red right ≡ false → Legal result }
{
    join_on(Side::Left, place, right, tall, left, low)
}
