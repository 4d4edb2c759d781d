// Changing a tree of pieces: a run put in, a part taken out, kept runs put back.
// The sources, a tree and the stock are three parameters: a cut leaves two trees over the same sources and one stock.
ghost use Rattle.std.specs.Prelude.{◌≡◌, ℕ, ◌+◌, ◌^◌, ◌<◌, ◌≤◌, List, [], ◌∷◌, ◌++◌, map, length, take, drop, vec_len, vec_capacity};
ghost use Rattle.ledger.specs.Places.{stretch};
ghost use Rattle.nodes.specs.Trees.{items, long};
ghost use Rattle.pieces.specs.Sources.{FaithfulTo, Has, HasAll, LyingOver};
ghost use Rattle.pieces.specs.Spread.{piece_of, places, spelled};

use element::Element;
use ledger::words::{Piece, Place};
use measure::{Measure, Total};
use nodes::{Node, Tree, draw, unlink};
use piece_tree::PieceTree;
use pieces::{Sources, cut, sew};

// Puts a run of places, `count` from a first one on, behind the first `offset`.
pub fn insert_run<E: Element, T: Measure<E>>(
    sources: Sources<'_, E>,
    tree: PieceTree<Place, T>,
    offset: usize,
    first: Place,
    count: usize,
    stock: &mut Vec<Box<Node<Place, T>>>,
) -> PieceTree<Place, T>
    requires standing { LyingOver sources tree.tree }
    requires within { offset ≤ long tree.tree }
    requires fits { long tree.tree + count < 2 ^ 64 }
    requires some { 0 < count }
    requires inside { Has sources first count }
    requires spare { 2 ≤ vec_len stock.old }
    requires room { vec_len stock.old + length (items tree.tree) ≤ vec_capacity stock.old }
    ensures places { places result.tree ≡ take offset (places tree.tree) ++ (stretch first.source first.index count ++ drop offset (places tree.tree)) }
    ensures long { long result.tree ≡ long tree.tree + count }
    ensures standing { LyingOver sources.entry result.tree }
    ensures faithful { FaithfulTo E.breaks T.neutral T.value T.joined sources.entry tree.tree → FaithfulTo E.breaks T.neutral T.value T.joined sources.entry result.tree }
    ensures stock { vec_len stock.new + length (items result.tree) ≡ vec_len stock.old + length (items tree.tree) }
    ensures capacity { vec_capacity stock.new ≡ vec_capacity stock.old }
{
    let (left, right) = cut(sources, tree, offset, stock);
    let left = add_run(sources, left, first, count, stock);
    sew(left, right, stock)
}

// A run of places behind all others.
fn add_run<E: Element, T: Measure<E>>(
    sources: Sources<'_, E>,
    tree: PieceTree<Place, T>,
    first: Place,
    count: usize,
    stock: &mut Vec<Box<Node<Place, T>>>,
) -> PieceTree<Place, T>
    requires standing { LyingOver sources tree.tree }
    requires fits { long tree.tree + count < 2 ^ 64 }
    requires some { 0 < count }
    requires inside { Has sources first count }
    requires spare { 0 < vec_len stock.old }
    requires room { vec_len stock.old + length (items tree.tree) ≤ vec_capacity stock.old }
    ensures places { places result.tree ≡ places tree.tree ++ stretch first.source first.index count }
    ensures long { long result.tree ≡ long tree.tree + count }
    ensures standing { LyingOver sources.entry result.tree }
    ensures faithful { FaithfulTo E.breaks T.neutral T.value T.joined sources.entry tree.tree → FaithfulTo E.breaks T.neutral T.value T.joined sources.entry result.tree }
    ensures stock { vec_len stock.new + length (items result.tree) ≡ vec_len stock.old + length (items tree.tree) }
    ensures drawn { vec_len stock.old ≤ vec_len stock.new + 1 }
    ensures capacity { vec_capacity stock.new ≡ vec_capacity stock.old }
{
    let item = sources.measure(first, count);
    let place = draw(stock, item);
    let run = PieceTree::single(place);
    sew(tree, run, stock)
}

// Takes `count` places behind the first `offset` out: the rest, sewn together, and the part.
pub fn take_out<E: Element, T: Measure<E>>(
    sources: Sources<'_, E>,
    tree: PieceTree<Place, T>,
    offset: usize,
    count: usize,
    stock: &mut Vec<Box<Node<Place, T>>>,
) -> (PieceTree<Place, T>, PieceTree<Place, T>)
    requires standing { LyingOver sources tree.tree }
    requires within { offset + count ≤ long tree.tree }
    requires spare { 2 ≤ vec_len stock.old }
    requires room { vec_len stock.old + length (items tree.tree) ≤ vec_capacity stock.old }
    ensures rest { places result.0.tree ≡ take offset (places tree.tree) ++ drop (offset + count) (places tree.tree) }
    ensures part { places result.1.tree ≡ take count (drop offset (places tree.tree)) }
    ensures long { (long result.0.tree + count ≡ long tree.tree) × (long result.1.tree ≡ count) }
    ensures standing { (LyingOver sources.entry result.0.tree) × (LyingOver sources.entry result.1.tree) }
    ensures faithful { FaithfulTo E.breaks T.neutral T.value T.joined sources.entry tree.tree → FaithfulTo E.breaks T.neutral T.value T.joined sources.entry result.0.tree }
    ensures stock { vec_len stock.new + (length (items result.0.tree) + length (items result.1.tree)) ≡ vec_len stock.old + length (items tree.tree) }
    ensures capacity { vec_capacity stock.new ≡ vec_capacity stock.old }
{
    let (left, rest) = cut(sources, tree, offset, stock);
    let (part, right) = cut(sources, rest, count, stock);
    (sew(left, right, stock), part)
}

// Gives the places of a part back to the stock, and pushes its pieces onto kept runs. Beside `recycle`, so that a part is walked
// once.
pub fn keep_runs<T: Total>(
    part: Tree<Place, T>,
    stock: &mut Vec<Box<Node<Place, T>>>,
    runs: &mut Vec<Piece>,
)
    requires room { vec_len stock.old + length (items part) ≤ vec_capacity stock.old }
    requires cells { vec_len runs.old + length (items part) ≤ vec_capacity runs.old }
    ensures runs { runs.new.items ≡ runs.old.items ++ map piece_of (items part) }
    ensures stock { vec_len stock.new ≡ vec_len stock.old + length (items part) }
    ensures capacity { (vec_capacity stock.new ≡ vec_capacity stock.old) × (vec_capacity runs.new ≡ vec_capacity runs.old) }
{
    match part {
        Tree::Empty => {}
        Tree::Place(place) => {
            let (place, left, right) = unlink(place);
            let item = place.item;
            keep_runs(left, stock, runs);
            stock.push_reserved(place);
            runs.push_reserved(Piece {
                source: item.piece.source,
                start: item.piece.index,
                length: item.length,
            });
            keep_runs(right, stock, runs);
        }
    }
}

// Puts runs, one after the other, behind the first `offset` places.
pub fn put_back<E: Element, T: Measure<E>>(
    sources: Sources<'_, E>,
    tree: PieceTree<Place, T>,
    offset: usize,
    runs: &[Piece],
    stock: &mut Vec<Box<Node<Place, T>>>,
) -> PieceTree<Place, T>
    requires standing { LyingOver sources tree.tree }
    requires within { offset ≤ long tree.tree }
    requires fits { long tree.tree + length (spelled runs.now) < 2 ^ 64 }
    requires inside { HasAll sources runs.now }
    requires spare { length runs.now + 1 ≤ vec_len stock.old }
    requires room { vec_len stock.old + length (items tree.tree) ≤ vec_capacity stock.old }
    ensures places { places result.tree ≡ take offset (places tree.tree) ++ (spelled runs.now ++ drop offset (places tree.tree)) }
    ensures long { long result.tree ≡ long tree.tree + length (spelled runs.now) }
    ensures standing { LyingOver sources.entry result.tree }
    ensures faithful { FaithfulTo E.breaks T.neutral T.value T.joined sources.entry tree.tree → FaithfulTo E.breaks T.neutral T.value T.joined sources.entry result.tree }
    ensures stock { vec_len stock.new + length (items result.tree) ≡ vec_len stock.old + length (items tree.tree) }
    ensures capacity { vec_capacity stock.new ≡ vec_capacity stock.old }
{
    let (mut left, right) = cut(sources, tree, offset, stock);
    for run in runs {
        let first = Place {
            source: run.source,
            index: run.start,
        };
        left = add_run(sources, left, first, run.length, stock);
    }
    sew(left, right, stock)
}
