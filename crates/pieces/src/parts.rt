// The sources, their parts, and what these carry.
ghost use Rattle.std.specs.Prelude.{◌≡◌, ℕ, ◌+◌, ◌<◌, ◌≤◌, List, length};
ghost use Rattle.nodes.specs.Trees.{Fair};
ghost use Rattle.pieces.specs.Faithful.{count_breaks};
ghost use Rattle.pieces.specs.Sources.{part_of, Has, TrueTo};

use element::Element;
use ledger::words::{Place, Source};
use measure::{Measure, Total, fold};
use nodes::Item;

// The two sources of a text: the read-only original, and the added source.
#[derive_where(Clone, Copy)]
pub struct Sources<'s, E> {
    pub original: &'s [E],
    pub added: &'s [E],
}

impl<'s, E> Sources<'s, E> {
    // So many elements of a source, from a place on.
    // A place and a count, and no Piece: an item of a tree has its length beside its place, and is often read in part.
    pub fn part(self, first: Place, count: usize) -> &'s [E]
        requires inside { Has self first count }
        ensures { result.now ≡ part_of self.entry first count }
    {
        let start = first.index;
        let stop = start + count;
        match first.source {
            Source::Original => &self.original[start..stop],
            Source::Added => &self.added[start..stop],
        }
    }
}

impl<'s, E: Element> Sources<'s, E> {
    // A piece with what its elements have, read off its source.
    pub fn measure<T: Measure<E>>(self, first: Place, count: usize) -> Item<Place, T>
        requires inside { Has self first count }
        requires some { 0 < count }
        ensures piece { result.piece ≡ first }
        ensures length { result.length ≡ count }
        ensures fair { Fair result }
        ensures carries { TrueTo E.breaks T.neutral T.value T.joined self.entry result }
    {
        let part = self.part(first, count);
        Item {
            piece: first,
            length: count,
            breaks: count_breaks(part),
            total: fold(part),
        }
    }
}

// How many elements of a part are breaks. A sum of ones and zeros: the count of a filter takes up to twice as long.
pub fn count_breaks<E: Element>(part: &[E]) -> usize
    ensures count { result ≡ count_breaks E.breaks part.now }
    ensures few { result ≤ length part.now }
{
    part.iter()
        .map(|element| usize::from(element.is_break()))
        .sum()
}
