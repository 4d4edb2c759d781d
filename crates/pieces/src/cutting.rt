// Cutting a tree of pieces in two.
// The sources, a tree and the stock are three parameters: a cut leaves two trees over the same sources and one stock.
ghost use Rattle.std.specs.Prelude.{◌≡◌, ℕ, ◌+◌, ◌^◌, ◌<◌, ◌≤◌, List, [], ◌∷◌, ◌++◌, length, take, drop, vec_len, vec_capacity};
ghost use Rattle.nodes.specs.Trees.{items, long, Balanced, Bare, Fair, Summed, Weighed};
ghost use Rattle.pieces.specs.Halves.{Halves};
ghost use Rattle.pieces.specs.Sources.{FaithfulTo, Has, LyingOver};
ghost use Rattle.pieces.specs.Spread.{places};

use crate::parts::Sources;
use element::Element;
use ledger::words::Place;
use measure::{Measure, Total};
use nodes::{Item, Node, draw};
use piece_tree::{PieceTree, Split};

// Cuts a tree in two at an offset: the pieces before it, and those behind it. A piece that lies on both sides is cut and
// measured anew.
// A tree does not hold its sources, so that it lies in them, and is faithful to them, is said in clauses, here and in `splicing`.
pub fn cut<E: Element, T: Measure<E>>(
    sources: Sources<'_, E>,
    tree: PieceTree<Place, T>,
    offset: usize,
    stock: &mut Vec<Box<Node<Place, T>>>,
) -> (PieceTree<Place, T>, PieceTree<Place, T>)
    requires standing { LyingOver sources tree.tree }
    requires within { offset ≤ long tree.tree }
    requires spare { 0 < vec_len stock.old }
    ensures front { places result.0.tree ≡ take offset (places tree.tree) }
    ensures back { places result.1.tree ≡ drop offset (places tree.tree) }
    ensures long { (long result.0.tree ≡ offset) × (offset + long result.1.tree ≡ long tree.tree) }
    ensures standing { (LyingOver sources.entry result.0.tree) × (LyingOver sources.entry result.1.tree) }
    ensures faithful { FaithfulTo E.breaks T.neutral T.value T.joined sources.entry tree.tree → FaithfulTo E.breaks T.neutral T.value T.joined sources.entry result.0.tree × FaithfulTo E.breaks T.neutral T.value T.joined sources.entry result.1.tree }
    ensures stock { vec_len stock.new + (length (items result.0.tree) + length (items result.1.tree)) ≡ vec_len stock.old + length (items tree.tree) }
    ensures drawn { vec_len stock.old ≤ vec_len stock.new + 1 }
    ensures capacity { vec_capacity stock.new ≡ vec_capacity stock.old }
{
    if offset == tree.len() {
        return (tree, PieceTree::empty());
    }
    let part = tree.split(offset);
    if part.inner == 0 {
        let back = part.right.push_front(part.place);
        return (part.left, back);
    }
    cut_piece(sources, part, stock)
}

// Cuts the piece that a tree was split at.
fn cut_piece<E: Element, T: Measure<E>>(
    sources: Sources<'_, E>,
    part: Split<Place, T>,
    stock: &mut Vec<Box<Node<Place, T>>>,
) -> (PieceTree<Place, T>, PieceTree<Place, T>)
    requires bare { Bare part.place.value }
    requires inner { (0 < part.inner) × (part.inner < part.place.value.item.length) }
    requires inside { Has sources part.place.value.item.piece part.place.value.item.length }
    requires fits { long part.left.tree + part.place.value.item.length + long part.right.tree < 2 ^ 64 }
    requires spare { 0 < vec_len stock.old }
    ensures halves { Halves E.breaks T.neutral T.value T.joined sources.entry.original.now sources.entry.added.now (items part.left.tree) part.place.value.item part.inner (items part.right.tree) (items result.0.tree) (items result.1.tree) }
    ensures long { (long result.0.tree ≡ long part.left.tree + part.inner) × (part.inner + long result.1.tree ≡ part.place.value.item.length + long part.right.tree) }
    ensures summed { Summed T.neutral T.joined part.left.tree → Summed T.neutral T.joined part.right.tree → Summed T.neutral T.joined result.0.tree × Summed T.neutral T.joined result.1.tree }
    ensures len { vec_len stock.new + 1 ≡ vec_len stock.old }
    ensures capacity { vec_capacity stock.new ≡ vec_capacity stock.old }
{
    let Split {
        left,
        place,
        inner,
        right,
    } = part;
    let item = place.item;
    let behind = Place {
        source: item.piece.source,
        index: item.piece.index + inner,
    };
    let front = sources.measure(item.piece, inner);
    let back = sources.measure(behind, item.length - inner);
    let last = draw(stock, front);
    let mut first = place;
    first.item = back;
    (left.push_back(last), right.push_front(first))
}
