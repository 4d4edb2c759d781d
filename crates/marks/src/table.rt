// The table of marks, one entry for each name.
ghost use Rattle.std.specs.Prelude.{◌≡◌, ◌+◌, ◌-◌, ◌^◌, ◌<◌, true, map, replicate, None, slice_set};
ghost use Rattle.std.specs.Option.{option_map};
ghost use Rattle.ledger.specs.Names.{is_name};
ghost use Rattle.ledger.specs.Steps.{mark_of, shifted, pulled};
ghost use Rattle.ledger.specs.declared.words.Mark.{Mark};
ghost use Rattle.marks.specs.Bounds.{Each, AllShiftable};
ghost use Rattle.marks.specs.Tables.{marks_of, Computes};

use crate::moving::{after_delete, after_insert};
use ledger::words::Mark;

// The marks of a text, from a to z.
// A name is a byte, as a step has it: a type of names would ask a conversion of each caller and save two clauses.
#[derive(Clone, Copy, PartialEq, Eq, Debug)]
pub struct Marks {
    entries: [Option<Mark>; 26],
}

// Changes each mark that is there, in place: the library's `map` of an array takes ten times as long, and nothing is known of
// what an adapter of `iter_mut` leaves.
fn change_each<F: Fn(Mark) -> Mark>(entries: &mut [Option<Mark>], change: F)
    requires { Each (F.pre change) entries.old }
    ensures { (f : Mark → Mark) → Computes (F.post change) f → entries.new ≡ map (option_map f) entries.old }
{
    for entry in entries.iter_mut() {
        if let Some(mark) = entry {
            *mark = change(*mark);
        }
    }
}

impl Marks {
    // No mark is there.
    pub fn none() -> Marks
        ensures { marks_of result ≡ replicate 26 None }
    {
        Marks {
            entries: [None; 26],
        }
    }

    // The mark of a name.
    pub fn get(&self, name: u8) -> Option<Mark>
        requires { is_name name ≡ true }
        ensures { result ≡ mark_of name (marks_of self.now) }
    {
        self.entries[usize::from(name - b'a')]
    }

    // Gives a name its mark, or none.
    pub fn put(&mut self, name: u8, mark: Option<Mark>)
        requires { is_name name ≡ true }
        ensures { marks_of self.new ≡ slice_set (marks_of self.old) (name - 97) mark }
    {
        let place = usize::from(name - b'a');
        self.entries[place] = mark;
    }

    // Moves the marks by an insert of `count` elements at `offset`.
    pub fn shift(&mut self, offset: usize, count: usize)
        requires { AllShiftable count (marks_of self.old) }
        ensures { marks_of self.new ≡ map (option_map (shifted offset count)) (marks_of self.old) }
    {
        change_each(&mut self.entries, |mark| after_insert(mark, offset, count));
    }

    // Moves the marks by a delete of `count` elements at `offset`.
    pub fn pull(&mut self, offset: usize, count: usize)
        requires { offset + count < 2 ^ 64 }
        ensures { marks_of self.new ≡ map (option_map (pulled offset count)) (marks_of self.old) }
    {
        change_each(&mut self.entries, |mark| after_delete(mark, offset, count));
    }
}
