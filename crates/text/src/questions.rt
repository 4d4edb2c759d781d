// Questions to a text.
ghost use Rattle.std.specs.Prelude.{◌≡◌, suc, ◌+◌, ◌^◌, ◌<◌, ◌≤◌, List, [], ◌∷◌, ◌++◌, length, take, drop};
ghost use Rattle.element.specs.Lines.{lines};
ghost use Rattle.measure.specs.Totals.{total};
ghost use Rattle.ledger.specs.Answers.{Shallow};
ghost use Rattle.ledger.specs.Places.{pieces_of, stretch};
ghost use Rattle.ledger.specs.declared.words.Source.TheVariants.{Added};
ghost use Rattle.nodes.specs.Trees.{long};
ghost use Rattle.reading.specs.LineParts.{line_found, part};
ghost use Rattle.text.specs.Texts.{added_of, original_of, text_places, written};

use crate::Text;
use element::Element;
use ledger::words::{Place, Source};
use measure::{Measure, Total};
use nodes::sums;
use pieces::Sources;
use reading::{Counter, Reader};
use seeking::depth;

impl<'o, E: Element, T: Measure<E>> Text<'o, E, T> {
    // The text to be read.
    fn reader(&self) -> Reader<'_, E, T>
        ensures sources { (result.sources.original.now ≡ original_of self.now) × (result.sources.added.now ≡ added_of self.now) }
        ensures tree { result.tree.now ≡ self.now.tree.tree }
        ensures long { long result.tree.now ≡ length (text_places self.now) }
    {
        Reader {
            sources: Sources {
                original: self.original,
                added: &self.added,
            },
            tree: &self.tree.tree,
        }
    }

    // The text to be counted.
    fn counter(&self) -> Counter<'_, T>
        ensures tree { result.tree.now ≡ self.now.tree.tree }
        ensures long { long result.tree.now ≡ length (text_places self.now) }
    {
        Counter {
            tree: &self.tree.tree,
        }
    }

    // The number of elements.
    pub fn len(&self) -> usize
        ensures places { result ≡ length (text_places self.now) }
        ensures written { result ≡ length (written self.now) }
        ensures short { result ≤ 2 ^ 24 }
    {
        self.tree.len()
    }

    // The number of elements of the added source.
    pub fn added_len(&self) -> usize
        ensures { result ≡ length (added_of self.now) }
    {
        self.added.len()
    }

    // How many pieces there may be.
    pub fn limit(&self) -> usize
        ensures { result ≡ self.now.limit }
    {
        self.limit
    }

    // The element at an offset.
    pub fn element(&self, offset: usize) -> E
        requires within { offset < length (text_places self.now) }
        ensures { drop offset (written self.now) ≡ result ∷ drop (offset + 1) (written self.now) }
    {
        self.reader().element_at(offset)
    }

    // The number of pieces.
    pub fn piece_count(&self) -> usize
        ensures count { result ≡ length (pieces_of (text_places self.now)) }
        ensures few { result ≤ self.now.limit }
    {
        sums(&self.tree.tree).pieces
    }

    // The number of pieces once `count` elements of the added source, from `start` on, stand behind the first `offset`.
    pub fn pieces_inserted(&self, offset: usize, start: usize, count: usize) -> usize
        requires some { 0 < count }
        requires within { offset ≤ length (text_places self.now) }
        ensures { result ≡ length (pieces_of (take offset (text_places self.now) ++ (stretch Added start count ++ drop offset (text_places self.now)))) }
    {
        let first = Place {
            source: Source::Added,
            index: start,
        };
        self.counter().pieces_with(offset, first, count)
    }

    // The number of pieces once the `count` elements behind the first `offset` are removed.
    pub fn pieces_removed(&self, offset: usize, count: usize) -> usize
        requires within { offset + count ≤ length (text_places self.now) }
        ensures { result ≡ length (pieces_of (take offset (text_places self.now) ++ drop (offset + count) (text_places self.now))) }
    {
        self.counter().pieces_without(offset, count)
    }

    // The number of runs of a part: its pieces.
    pub fn runs(&self, offset: usize, count: usize) -> usize
        requires within { offset + count ≤ length (text_places self.now) }
        ensures { result ≡ length (pieces_of (take count (drop offset (text_places self.now)))) }
    {
        self.counter().runs_in(offset, count)
    }

    // The number of lines. A line ends with its break; a last line without one counts too.
    pub fn line_count(&self) -> usize
        ensures { result ≡ length (lines E.breaks (written self.now)) }
    {
        self.reader().line_count()
    }

    // A line's first offset and its length, where there is a line of this number.
    pub fn line(&self, number: usize) -> Option<(usize, usize)>
        ensures { result ≡ line_found E.breaks (written self.now) number }
    {
        self.reader().line(number)
    }

    // The line that holds the element at an offset.
    pub fn line_of(&self, offset: usize) -> usize
        requires within { offset < length (text_places self.now) }
        ensures { result ≡ length (lines E.breaks (take (suc offset) (written self.now))) }
    {
        self.reader().line_of(offset)
    }

    // The total of the part from an offset up to another, which is left out.
    pub fn part_total(&self, from: usize, upto: usize) -> T
        requires within { (from ≤ upto) × (upto ≤ length (text_places self.now)) }
        ensures { result ≡ total T.neutral T.value T.joined (part from upto (written self.now)) }
    {
        self.reader().part_total(from, upto)
    }

    // The tree places on the longest way down.
    pub fn depth(&self) -> usize
        ensures { Shallow (length (pieces_of (text_places self.now))) result }
    {
        depth(&self.tree.tree)
    }
}
