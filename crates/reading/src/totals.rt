// The total of a part.
ghost use Rattle.std.specs.Prelude.{◌≡◌, ℕ, ◌+◌, ◌^◌, ◌<◌, ◌≤◌, length};
ghost use Rattle.measure.specs.Totals.{total};
ghost use Rattle.nodes.specs.Trees.{long};
ghost use Rattle.pieces.specs.Sources.{part_of, Has, TrueTo};
ghost use Rattle.reading.specs.LineParts.{part};
ghost use Rattle.reading.specs.Readers.{read, Measured};

use crate::reader::Reader;
use element::Element;
use ledger::words::Place;
use measure::{Measure, Total, fold};
use nodes::{Item, Node, Tree, sums};
use pieces::Sources;

impl<'t, E: Element, T: Measure<E>> Reader<'t, E, T> {
    // The total of the part from an offset up to another, which is left out. Reads the elements of two pieces at most.
    pub fn part_total(&self, from: usize, upto: usize) -> T
        requires within { (from ≤ upto) × (upto ≤ long self.now.tree.now) }
        ensures { Measured E.breaks T.neutral T.value T.joined self.now → result ≡ total T.neutral T.value T.joined (part from upto (read self.now)) }
    {
        if from == upto {
            return T::empty();
        }
        match self.tree {
            Tree::Empty => T::empty(),
            Tree::Place(place) => {
                let node: &Node<Place, T> = place;
                if from == 0 && upto == node.sums.length {
                    return node.sums.total;
                }
                let left = sums(&node.left).length;
                let left_side = Reader {
                    sources: self.sources,
                    tree: &node.left,
                };
                let front = left_side.part_total(from.min(left), upto.min(left));
                let begin = from.saturating_sub(left);
                let end = upto.saturating_sub(left);
                let count = node.item.length;
                let inner = item_total(self.sources, node.item, begin.min(count), end.min(count));
                let begin_behind = begin.saturating_sub(count);
                let end_behind = end.saturating_sub(count);
                let right_side = Reader {
                    sources: self.sources,
                    tree: &node.right,
                };
                let back = right_side.part_total(begin_behind, end_behind);
                front.join(inner).join(back)
            }
        }
    }
}

// The total of the part of a piece from an offset in it up to another, which is left out. Reads no elements where that
// is nothing or the whole piece.
fn item_total<E: Element, T: Measure<E>>(
    sources: Sources<'_, E>,
    item: Item<Place, T>,
    from: usize,
    upto: usize,
) -> T
    requires inside { Has sources item.piece item.length }
    requires within { (from ≤ upto) × (upto ≤ item.length) }
    ensures { TrueTo E.breaks T.neutral T.value T.joined sources.entry item → result ≡ total T.neutral T.value T.joined (part from upto (part_of sources.entry item.piece item.length)) }
{
    if from == upto {
        return T::empty();
    }
    if from == 0 && upto == item.length {
        return item.total;
    }
    let first = Place {
        source: item.piece.source,
        index: item.piece.index + from,
    };
    fold(sources.part(first, upto - from))
}
