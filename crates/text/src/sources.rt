// The added source: elements appended to it, and the last ones taken away again.
ghost use Rattle.std.specs.Prelude.{◌≡◌, ◌+◌, ◌-◌, ◌^◌, ◌<◌, ◌≤◌, List, [], ◌∷◌, ◌++◌, length, take, vec_len, vec_capacity};
ghost use Rattle.ledger.specs.Places.{elements_at};
ghost use Rattle.text.specs.Texts.{added_of, original_of, text_places, written, SameText};

use crate::Text;
use element::Element;
use measure::{Measure, Total};

impl<'o, E: Element, T: Measure<E>> Text<'o, E, T> {
    // Puts elements at the end of the added source, which has room for them.
    pub fn append(&mut self, new: &[E])
        requires room { vec_len self.old.added + length new.now ≤ vec_capacity self.old.added }
        ensures added { added_of self.new ≡ added_of self.old ++ new.now }
        ensures same { SameText self.old self.new }
        ensures written { written self.new ≡ written self.old }
    {
        push_all(&mut self.added, new);
    }

    // Takes the last `count` elements of the added source away, none of which the text has.
    pub fn take_back(&mut self, count: usize)
        requires some { count ≤ vec_len self.old.added }
        requires unused { length (elements_at (original_of self.old) (take (vec_len self.old.added - count) (added_of self.old)) (text_places self.old)) ≡ length (text_places self.old) }
        ensures added { added_of self.new ≡ take (vec_len self.old.added - count) (added_of self.old) }
        ensures same { SameText self.old self.new }
        ensures written { written self.new ≡ written self.old }
    {
        let left = self.added.len() - count;
        self.added.truncate(left);
    }
}

// Elements at the end of a vector that has room for them.
// One by one: the library's methods that take a slice may allocate.
fn push_all<E: Copy>(items: &mut Vec<E>, new: &[E])
    requires room { vec_len items.old + length new.now ≤ vec_capacity items.old }
    ensures items { items.new.items ≡ items.old.items ++ new.now }
    ensures capacity { vec_capacity items.new ≡ vec_capacity items.old }
{
    for element in new {
        items.push_reserved(*element);
    }
}
