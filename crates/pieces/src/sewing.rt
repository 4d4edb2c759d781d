// Sewing two trees of pieces together.
ghost use Rattle.std.specs.Prelude.{◌≡◌, ℕ, ◌+◌, ◌^◌, ◌<◌, ◌≤◌, List, [], ◌∷◌, ◌++◌, length, vec_len, vec_capacity};
ghost use Rattle.nodes.specs.Trees.{items, long, Balanced, Bare, Fair, Summed, Weighed};
ghost use Rattle.pieces.specs.Spread.{merged, sewn, sewn_on, touches};

use ledger::words::Place;
use measure::Total;
use nodes::{Item, Node};
use piece_tree::PieceTree;

// Whether the second piece goes on where the first ends.
fn go_on<T: Total>(before: Item<Place, T>, after: Item<Place, T>) -> bool
    ensures { result ≡ touches before after }
{
    before.piece.source == after.piece.source
        && after.piece.index.checked_sub(before.piece.index) == Some(before.length)
}

// Joins two trees around their ends, the last place of the first and the first of the second, which become one where their
// pieces touch.
fn join_ends<T: Total>(
    front: PieceTree<Place, T>,
    last: Box<Node<Place, T>>,
    first: Box<Node<Place, T>>,
    back: PieceTree<Place, T>,
    stock: &mut Vec<Box<Node<Place, T>>>,
) -> PieceTree<Place, T>
    requires bare { (Bare last.value) × (Bare first.value) }
    requires fair { (Fair last.value.item) × (Fair first.value.item) }
    requires fits { long front.tree + last.value.item.length + first.value.item.length + long back.tree < 2 ^ 64 }
    requires room { vec_len stock.old < vec_capacity stock.old }
    ensures items { items result.tree ≡ items front.tree ++ sewn_on T.joined last.value.item (first.value.item ∷ items back.tree) }
    ensures long { long result.tree ≡ long front.tree + last.value.item.length + first.value.item.length + long back.tree }
    ensures summed { Summed T.neutral T.joined front.tree → Summed T.neutral T.joined back.tree → Summed T.neutral T.joined result.tree }
    ensures stock { vec_len stock.new + length (items result.tree) ≡ vec_len stock.old + (length (items front.tree) + length (items back.tree) + 2) }
    ensures capacity { vec_capacity stock.new ≡ vec_capacity stock.old }
{
    let before = last.item;
    let after = first.item;
    if go_on(before, after) {
        let mut place = last;
        place.item = Item {
            piece: before.piece,
            length: before.length + after.length,
            breaks: before.breaks + after.breaks,
            total: before.total.join(after.total),
        };
        stock.push_reserved(first);
        front.join(place, back)
    } else {
        front.join(last, back.push_front(first))
    }
}

// One tree after the other. Where the last piece of the first and the first of the second touch, they become one.
pub fn sew<T: Total>(
    left: PieceTree<Place, T>,
    right: PieceTree<Place, T>,
    stock: &mut Vec<Box<Node<Place, T>>>,
) -> PieceTree<Place, T>
    requires fits { long left.tree + long right.tree < 2 ^ 64 }
    requires room { vec_len stock.old + (length (items left.tree) + length (items right.tree)) ≤ vec_capacity stock.old }
    ensures items { items result.tree ≡ sewn T.joined (items left.tree) (items right.tree) }
    ensures long { long result.tree ≡ long left.tree + long right.tree }
    ensures summed { Summed T.neutral T.joined left.tree → Summed T.neutral T.joined right.tree → Summed T.neutral T.joined result.tree }
    ensures stock { vec_len stock.new + length (items result.tree) ≡ vec_len stock.old + (length (items left.tree) + length (items right.tree)) }
    ensures capacity { vec_capacity stock.new ≡ vec_capacity stock.old }
{
    if left.len() == 0 {
        return right;
    }
    if right.len() == 0 {
        return left;
    }
    let (front, last) = left.take_last();
    let (first, back) = right.take_first();
    join_ends(front, last, first, back, stock)
}
