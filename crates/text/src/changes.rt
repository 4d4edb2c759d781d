// Changes of a text: a run of the added source put in, a part removed, kept runs put back.
ghost use Rattle.std.specs.Prelude.{◌≡◌, ◌+◌, ◌^◌, ◌<◌, ◌≤◌, List, [], ◌∷◌, ◌++◌, length, take, drop, vec_len, vec_capacity};
ghost use Rattle.ledger.specs.Places.{elements_at, pieces_of, stretch};
ghost use Rattle.ledger.specs.declared.words.Source.TheVariants.{Added};
ghost use Rattle.pieces.specs.Spread.{spelled};
ghost use Rattle.text.specs.Texts.{added_of, original_of, text_places, Kept};

use crate::Text;
use element::Element;
use ledger::words::{Piece, Place, Source};
use measure::{Measure, Total};
use nodes::recycle;
use piece_tree::PieceTree;
use pieces::Sources;
use splicing::{insert_run, keep_runs, put_back, take_out};

impl<'o, E: Element, T: Measure<E>> Text<'o, E, T> {
    // Puts `count` elements of the added source, from `start` on, behind the first `offset`.
    pub fn insert(&mut self, offset: usize, start: usize, count: usize)
        requires some { 0 < count }
        requires inside { start + count ≤ length (added_of self.old) }
        requires within { offset ≤ length (text_places self.old) }
        requires short { length (text_places self.old) + count ≤ 2 ^ 24 }
        requires few { length (pieces_of (take offset (text_places self.old) ++ (stretch Added start count ++ drop offset (text_places self.old)))) ≤ self.old.limit }
        ensures places { text_places self.new ≡ take offset (text_places self.old) ++ (stretch Added start count ++ drop offset (text_places self.old)) }
        ensures kept { Kept self.old self.new }
    {
        let first = Place {
            source: Source::Added,
            index: start,
        };
        let sources = Sources {
            original: self.original,
            added: &self.added,
        };
        let tree = std::mem::replace(&mut self.tree, PieceTree::empty());
        self.tree = insert_run(sources, tree, offset, first, count, &mut self.stock);
    }

    // Removes the `count` elements behind the first `offset`.
    pub fn remove(&mut self, offset: usize, count: usize)
        requires some { 0 < count }
        requires within { offset + count ≤ length (text_places self.old) }
        requires few { length (pieces_of (take offset (text_places self.old) ++ drop (offset + count) (text_places self.old))) ≤ self.old.limit }
        ensures places { text_places self.new ≡ take offset (text_places self.old) ++ drop (offset + count) (text_places self.old) }
        ensures kept { Kept self.old self.new }
    {
        let sources = Sources {
            original: self.original,
            added: &self.added,
        };
        let tree = std::mem::replace(&mut self.tree, PieceTree::empty());
        let (rest, part) = take_out(sources, tree, offset, count, &mut self.stock);
        recycle(part.tree, &mut self.stock);
        self.tree = rest;
    }

    // Removes the `count` elements behind the first `offset`, and pushes the pieces of this part onto kept runs, which have
    // room for them.
    // Beside `remove`, which it follows but for one call: a closure for that call would need its effect on the stock in clauses.
    pub fn remove_kept(&mut self, offset: usize, count: usize, runs: &mut Vec<Piece>)
        requires some { 0 < count }
        requires within { offset + count ≤ length (text_places self.old) }
        requires few { length (pieces_of (take offset (text_places self.old) ++ drop (offset + count) (text_places self.old))) ≤ self.old.limit }
        requires room { vec_len runs.old + length (pieces_of (take count (drop offset (text_places self.old)))) ≤ vec_capacity runs.old }
        ensures places { text_places self.new ≡ take offset (text_places self.old) ++ drop (offset + count) (text_places self.old) }
        ensures runs { runs.new.items ≡ runs.old.items ++ pieces_of (take count (drop offset (text_places self.old))) }
        ensures capacity { vec_capacity runs.new ≡ vec_capacity runs.old }
        ensures kept { Kept self.old self.new }
    {
        let sources = Sources {
            original: self.original,
            added: &self.added,
        };
        let tree = std::mem::replace(&mut self.tree, PieceTree::empty());
        let (rest, part) = take_out(sources, tree, offset, count, &mut self.stock);
        keep_runs(part.tree, &mut self.stock, runs);
        self.tree = rest;
    }

    // Puts kept runs back behind the first `offset` elements.
    pub fn put_back(&mut self, offset: usize, runs: &[Piece])
        requires some { 0 < length runs.now }
        requires longest { runs.now ≡ pieces_of (spelled runs.now) }
        requires inside { length (elements_at (original_of self.old) (added_of self.old) (spelled runs.now)) ≡ length (spelled runs.now) }
        requires within { offset ≤ length (text_places self.old) }
        requires short { length (text_places self.old) + length (spelled runs.now) ≤ 2 ^ 24 }
        requires few { length (pieces_of (take offset (text_places self.old) ++ (spelled runs.now ++ drop offset (text_places self.old)))) ≤ self.old.limit }
        ensures places { text_places self.new ≡ take offset (text_places self.old) ++ (spelled runs.now ++ drop offset (text_places self.old)) }
        ensures kept { Kept self.old self.new }
    {
        let sources = Sources {
            original: self.original,
            added: &self.added,
        };
        let tree = std::mem::replace(&mut self.tree, PieceTree::empty());
        self.tree = put_back(sources, tree, offset, runs, &mut self.stock);
    }
}
