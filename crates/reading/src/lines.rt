// Lines: how many there are, where one begins and how long it is, and which one holds an offset. A line ends with its
// break; a last line without one counts too; an empty text has no lines.
ghost use Rattle.std.specs.Prelude.{◌≡◌, suc, ◌+◌, ◌^◌, ◌<◌, ◌≤◌, length, take};
ghost use Rattle.element.specs.Lines.{lines};
ghost use Rattle.nodes.specs.Trees.{long};
ghost use Rattle.reading.specs.LineParts.{behind, line_found};
ghost use Rattle.reading.specs.Readers.{read, Measured};

use crate::reader::Reader;
use element::Element;
use measure::{Measure, Total};
use nodes::sums;
use pieces::count_breaks;
use seeking::{find, find_break};

impl<'t, E: Element, T: Measure<E>> Reader<'t, E, T> {
    // The number of lines.
    pub fn line_count(&self) -> usize
        requires fits { long self.now.tree.now + 1 < 2 ^ 64 }
        ensures { Measured E.breaks T.neutral T.value T.joined self.now → result ≡ length (lines E.breaks (read self.now)) }
    {
        let all = sums(self.tree);
        if all.length == 0 {
            return 0;
        }
        if self.element_at(all.length - 1).is_break() {
            all.breaks
        } else {
            all.breaks + 1
        }
    }

    // The line that holds the element at an offset.
    pub fn line_of(&self, offset: usize) -> usize
        requires fits { long self.now.tree.now + 1 < 2 ^ 64 }
        requires within { offset < long self.now.tree.now }
        ensures { Measured E.breaks T.neutral T.value T.joined self.now → result ≡ length (lines E.breaks (take (suc offset) (read self.now))) }
    {
        let found = find(self.tree, offset);
        let front = self.sources.part(found.item.piece, found.inner);
        found.before.breaks + count_breaks(front) + 1
    }

    // A line's first offset and its length, where there is a line of this number. A pair, as the rules answer it: each caller
    // would take a struct of the two apart.
    pub fn line(&self, number: usize) -> Option<(usize, usize)>
        requires fits { long self.now.tree.now + 1 < 2 ^ 64 }
        ensures { Measured E.breaks T.neutral T.value T.joined self.now → result ≡ line_found E.breaks (read self.now) number }
    {
        if number == 0 || number > self.line_count() {
            return None;
        }
        let start = self.line_start(number - 1);
        let stop = self.line_start(number);
        Some((start, stop.saturating_sub(start)))
    }

    // The offset behind so many breaks, or behind all elements where there are fewer.
    fn line_start(&self, number: usize) -> usize
        ensures { Measured E.breaks T.neutral T.value T.joined self.now → result ≡ behind E.breaks number (read self.now) }
    {
        if number == 0 {
            return 0;
        }
        let all = sums(self.tree);
        if number > all.breaks {
            return all.length;
        }
        let found = find_break(self.tree, number - 1);
        let part = self.sources.part(found.item.piece, found.item.length);
        found.before.length + break_position(part, found.inner)
    }
}

// How many elements lie up to and including the break of this number, counted from 0: all where there are fewer breaks.
fn break_position<E: Element>(part: &[E], number: usize) -> usize
    ensures position { result ≡ behind E.breaks (suc number) part.now }
    ensures within { result ≤ length part.now }
{
    let mut breaks = part
        .iter()
        .enumerate()
        .filter(|(_, element)| element.is_break());
    match breaks.nth(number) {
        Some((i, _)) => i + 1,
        None => part.len(),
    }
}
