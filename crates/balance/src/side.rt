// The two sides of a place, for code that is the same on both but for the order of the text.
ghost use Rattle.std.specs.Prelude.{◌≡◌, ◌+◌};
ghost use Rattle.nodes.specs.Trees.{items, long, red, ruddy, weight, blacks, Bare, Calm, Legal, Summed, Weighed};
ghost use Rattle.balance.specs.Sides.{between, inner_side, outer_side, reds_on, Leans, Linkable};

use measure::Total;
use nodes::{Colour, Node, Tree, is_red, link, unlink};

// The side of a place that a tree is joined down: the outer one. The other one is the inner one. A value and no type parameter:
// calls need no type arguments, and clauses read by the sides' names.
#[derive(Clone, Copy, PartialEq, Eq, Debug)]
pub(crate) enum Side {
    Left,
    Right,
}

// The place over two sides, with the sums of all three in the order of the text.
pub(crate) fn link_on<P: Copy, T: Total>(
    side: Side,
    place: Box<Node<P, T>>,
    colour: Colour,
    inner: Tree<P, T>,
    outer: Tree<P, T>,
) -> Tree<P, T>
    requires linkable { Linkable place.value inner outer }
    ensures items { items result ≡ between side (items inner) place.value.item (items outer) }
    ensures long { long result ≡ long inner + place.value.item.length + long outer }
    ensures weighed { Weighed result }
    ensures summed { Summed T.neutral T.joined inner → Summed T.neutral T.joined outer → Summed T.neutral T.joined result }
    ensures colour { red result ≡ ruddy colour }
    ensures blacks { blacks inner ≡ blacks outer → blacks result ≡ weight colour + blacks inner }
    ensures legal { blacks inner ≡ blacks outer → Calm colour inner → Calm colour outer → Legal inner → Legal outer → Legal result }
    ensures leans { blacks inner ≡ blacks outer → Calm colour inner → Legal inner → Legal outer → Leans side result }
{
    match side {
        Side::Left => link(place, colour, outer, inner),
        Side::Right => link(place, colour, inner, outer),
    }
}

// A place taken from its inner and its outer side.
pub(crate) fn unlink_on<P: Copy, T: Total>(
    side: Side,
    place: Box<Node<P, T>>,
) -> (Box<Node<P, T>>, Tree<P, T>, Tree<P, T>)
    ensures bare { Bare result.0.value }
    ensures item { result.0.value.item ≡ place.value.item }
    ensures inner { result.1 ≡ inner_side side place.value }
    ensures outer { result.2 ≡ outer_side side place.value }
{
    let (place, left, right) = unlink(place);
    match side {
        Side::Left => (place, right, left),
        Side::Right => (place, left, right),
    }
}

// Whether the top place and its outer side are both red.
pub(crate) fn both_red<P, T>(side: Side, tree: &Tree<P, T>) -> bool
    ensures { result ≡ reds_on side tree.now }
{
    match tree {
        Tree::Empty => false,
        Tree::Place(place) => {
            let outer = match side {
                Side::Left => &place.left,
                Side::Right => &place.right,
            };
            place.colour == Colour::Red && is_red(outer)
        }
    }
}
