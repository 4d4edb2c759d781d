// Beginning with an original, and giving the memory back.
ghost use Rattle.std.specs.Prelude.{◌≡◌, ◌+◌, ◌^◌, ◌<◌, ◌≤◌, [], length, vec_len, vec_capacity};
ghost use Rattle.ledger.specs.Places.{stretch};
ghost use Rattle.ledger.specs.declared.words.Source.TheVariants.{Original};
ghost use Rattle.nodes.specs.Trees.{items, long};
ghost use Rattle.pieces.specs.Sources.{FaithfulTo, LyingOver};
ghost use Rattle.pieces.specs.Spread.{places};
ghost use Rattle.text.specs.Texts.{places_owned, text_places};

use crate::Text;
use element::Element;
use ledger::words::{Place, Source};
use measure::{Measure, Total};
use nodes::{Node, draw, recycle};
use piece_tree::PieceTree;
use pieces::Sources;

impl<'o, E: Element, T: Measure<E>> Text<'o, E, T> {
    // The text of an original, with nothing added: at most one piece.
    pub fn begin(
        original: &'o [E],
        mut added: Vec<E>,
        mut stock: Vec<Box<Node<Place, T>>>,
        limit: usize,
    ) -> Text<'o, E, T>
        requires short { length original.now ≤ 2 ^ 24 }
        requires one { 0 < length original.now → 0 < limit }
        requires ample { 0 < limit → limit + 8 ≤ vec_len stock }
        ensures places { text_places result ≡ stretch Original 0 (length original.now) }
        ensures original { result.original ≡ original.entry }
        ensures added { (result.added.items ≡ []) × (vec_capacity result.added ≡ vec_capacity added) }
        ensures limit { result.limit ≡ limit }
        ensures owned { places_owned result ≡ vec_len stock }
    {
        added.clear();
        let sources = Sources {
            original,
            added: &added,
        };
        let tree = whole_tree(sources, &mut stock);
        Text {
            original,
            added,
            tree,
            stock,
            limit,
        }
    }

    // The memory of a text: the added source, and all tree places.
    pub fn into_memory(self) -> (Vec<E>, Vec<Box<Node<Place, T>>>)
        ensures added { result.0 ≡ self.entry.added }
        ensures places { (vec_len result.1 ≡ places_owned self.entry) × (vec_capacity result.1 ≡ vec_capacity self.entry.stock) }
    {
        let Text {
            added,
            tree,
            mut stock,
            ..
        } = self;
        recycle(tree.tree, &mut stock);
        (added, stock)
    }
}

// The tree of a whole original.
fn whole_tree<E: Element, T: Measure<E>>(
    sources: Sources<'_, E>,
    stock: &mut Vec<Box<Node<Place, T>>>,
) -> PieceTree<Place, T>
    requires one { 0 < length sources.original.now → 0 < vec_len stock.old }
    ensures places { places result.tree ≡ stretch Original 0 (length sources.entry.original.now) }
    ensures long { long result.tree ≡ length sources.entry.original.now }
    ensures few { (length (items result.tree) ≤ 1) × ((length sources.entry.original.now ≡ 0 → length (items result.tree) ≡ 0)) }
    ensures standing { LyingOver sources.entry result.tree }
    ensures faithful { FaithfulTo E.breaks T.neutral T.value T.joined sources.entry result.tree }
    ensures stock { vec_len stock.new + length (items result.tree) ≡ vec_len stock.old }
    ensures capacity { vec_capacity stock.new ≡ vec_capacity stock.old }
{
    let count = sources.original.len();
    if count == 0 {
        return PieceTree::empty();
    }
    let first = Place {
        source: Source::Original,
        index: 0,
    };
    let place = draw(stock, sources.measure(first, count));
    PieceTree::single(place)
}
