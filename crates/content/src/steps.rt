// Steps made, and taken back.
ghost use Rattle.std.specs.Prelude.{◌≡◌, ◌+◌, ◌≤◌, ◌++◌, length, replicate, None, vec_len, vec_capacity};
ghost use Rattle.ledger.specs.Places.{pieces_of};
ghost use Rattle.ledger.specs.Steps.{Content, apply};
ghost use Rattle.ledger.specs.declared.words.Step.TheVariants.{Delete};
ghost use Rattle.text.specs.Texts.{text_places, Kept};
ghost use Rattle.content.specs.Sheets.{content_of, kept_runs, taken_back, Doable, MadeOf, Restorable, Undoable};

use crate::Sheet;
use element::Element;
use ledger::words::{Piece, Step};
use marks::table::Marks;
use measure::{Measure, Total};
use text::Text;

// Gives a text the places that it had before a step.
fn restore<'o, E: Element, T: Measure<E>>(text: &mut Text<'o, E, T>, step: Step, runs: &[Piece])
    requires restorable { Restorable step runs.now text.old }
    requires few { length (pieces_of (taken_back step runs.now (text_places text.old))) ≤ text.old.limit }
    ensures places { text_places text.new ≡ taken_back step runs.now (text_places text.old) }
    ensures kept { Kept text.old text.new }
{
    match step {
        Step::Insert { offset, length, .. } => text.remove(offset, length),
        Step::Delete { offset, .. } => text.put_back(offset, runs),
        Step::SetMark { .. } | Step::DropMark { .. } => {}
    }
}

impl<'o, E: Element, T: Measure<E>> Sheet<'o, E, T> {
    // A text without marks.
    pub fn begin(text: Text<'o, E, T>) -> Sheet<'o, E, T>
        ensures text { result.text ≡ text.entry }
        ensures content { content_of result ≡ record { places = text_places text.entry; marks = replicate 26 None } }
    {
        Sheet {
            text,
            marks: Marks::none(),
        }
    }

    // Makes a step.
    pub fn apply(&mut self, step: Step)
        requires doable { Doable step self.old }
        ensures content { content_of self.new ≡ apply step (content_of self.old) }
        ensures kept { Kept self.old.text self.new.text }
    {
        match step {
            Step::Insert {
                offset,
                length,
                start,
            } => {
                self.text.insert(offset, start, length);
                self.marks.shift(offset, length);
            }
            Step::Delete { offset, length } => {
                self.text.remove(offset, length);
                self.marks.pull(offset, length);
            }
            Step::SetMark { name, mark } => self.marks.put(name, Some(mark)),
            Step::DropMark { name } => self.marks.put(name, None),
        }
    }

    // Deletes, and pushes the pieces of the deleted part onto kept runs, which have room for them.
    pub fn delete_keeping(&mut self, offset: usize, count: usize, runs: &mut Vec<Piece>)
        requires doable { Doable (Delete offset count) self.old }
        requires room { vec_len runs.old + length (kept_runs (Delete offset count) (content_of self.old)) ≤ vec_capacity runs.old }
        ensures content { content_of self.new ≡ apply (Delete offset count) (content_of self.old) }
        ensures runs { runs.new.items ≡ runs.old.items ++ kept_runs (Delete offset count) (content_of self.old) }
        ensures capacity { vec_capacity runs.new ≡ vec_capacity runs.old }
        ensures kept { Kept self.old.text self.new.text }
    {
        self.text.remove_kept(offset, count, runs);
        self.marks.pull(offset, count);
    }

    // Takes a step back, given the marks before it and the runs that it kept.
    pub fn revert(&mut self, step: Step, marks: Marks, runs: &[Piece])
        requires undoable { Undoable step marks runs.now self.old }
        ensures content { (before : Content) → MadeOf step marks runs.now self.old before → content_of self.new ≡ before }
        ensures kept { Kept self.old.text self.new.text }
    {
        restore(&mut self.text, step, runs);
        self.marks = marks;
    }
}
