// A text: its two sources, and the tree of its pieces.
#![tactic(auto)]

ghost use Rattle.std.specs.Prelude.{◌+◌, ◌^◌, ◌<◌, ◌≤◌, length, vec_len, vec_capacity};
ghost use Rattle.nodes.specs.Trees.{items, long};
ghost use Rattle.pieces.specs.Faithful.{Faithful};
ghost use Rattle.pieces.specs.Spread.{Lying};
ghost use Rattle.pieces.proofs.Props.{lying_prop};
ghost use Rattle.text.specs.Props.{faithful_prop};

mod begin;
mod changes;
mod questions;
mod sources;

use element::Element;
use ledger::words::Place;
use measure::Measure;
use nodes::Node;
use piece_tree::PieceTree;

// The read-only original, the added source, which grows at its end, and the pieces of both that the text is made of, in a
// red-black tree. Each piece is a longest stretch, and the tree carries the breaks and totals of its elements. There are at
// most `limit` pieces, and eight tree places more than that, in use or in stock, unless the limit is 0.
#[derive(Drop)]
pub struct Text<'o, E: Element, T: Measure<E>> {
    original: &'o [E],
    added: Vec<E>,
    tree: PieceTree<Place, T>,
    stock: Vec<Box<Node<Place, T>>>,
    limit: usize,
    ghost standing: { Lying (length original.now) (length added.items) tree.tree } by { lying_prop (length original.now) (length added.items) tree.tree },
    pub ghost measured: { Faithful E.breaks T.neutral T.value T.joined original.now added.items tree.tree } by { faithful_prop T.code E.breaks T.neutral T.value T.joined original.now added.items tree.tree },
    ghost short: { long tree.tree ≤ 2 ^ 24 },
    ghost few: { length (items tree.tree) ≤ limit },
    ghost ample: { 0 < limit → limit + 8 ≤ vec_len stock + length (items tree.tree) },
    ghost room: { vec_len stock + length (items tree.tree) ≤ vec_capacity stock },
}
