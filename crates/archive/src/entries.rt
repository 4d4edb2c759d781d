// The entries of an open group: filed, taken back, and sealed as a version.
ghost use Rattle.std.specs.Prelude.{◌≡◌, ◌+◌, ◌^◌, ◌<◌, [], ◌∷◌, reverse, length, None, vec_len, vec_capacity};
ghost use Rattle.archive.specs.Archives.{entries_of, links_of, open_entries, volumes_of, SameVersions};
ghost use Rattle.archive.specs.Volumes.{volume};

use crate::Archive;
use crate::types::{Chapter, Entry};
use ledger::words::Step;
use marks::table::Marks;

impl Archive {
    // The entries that are in no version, the oldest first.
    #[tactic(auto, using(crate::proofs::Filing::open_part))]
    pub fn open_group(&self) -> &[Entry]
        ensures { reverse result.now ≡ open_entries self.now }
    {
        &self.entries[self.sealed..]
    }

    // Files a step with the marks before it, and the last `kept` runs as its own.
    #[tactic(auto, using(crate::proofs::Filing::stored_last))]
    pub fn file(&mut self, step: Step, marks: Marks, kept: usize)
        requires room { vec_len self.old.entries < vec_capacity self.old.entries }
        requires fits { self.old.runs + kept < 2 ^ 64 }
        ensures entries { entries_of self.new ≡ record { step = step; marks = marks; first = self.old.runs; kept = kept } ∷ entries_of self.old }
        ensures group { open_entries self.new ≡ record { step = step; marks = marks; first = self.old.runs; kept = kept } ∷ open_entries self.old }
        ensures runs { self.new.runs ≡ self.old.runs + kept }
        ensures same { SameVersions self.old self.new }
    {
        self.entries.push_reserved(Entry {
            step,
            marks,
            first: self.runs,
            kept,
        });
        self.runs += kept;
    }

    // Takes the newest entry of an open group back, with its runs.
    #[tactic(auto, using(crate::proofs::Filing::without_newest))]
    pub fn unfile(&mut self) -> Entry
        requires some { 0 < length (open_entries self.old) }
        ensures entries { result ∷ entries_of self.new ≡ entries_of self.old }
        ensures group { result ∷ open_entries self.new ≡ open_entries self.old }
        ensures runs { (self.new.runs ≡ result.first) × (result.first + result.kept ≡ self.old.runs) }
        ensures same { SameVersions self.old self.new }
    {
        let newest = self.entries.pop().unwrap();
        self.runs = newest.first;
        newest
    }

    // Makes the entries that are in no version the next version, a child of `parent`.
    #[tactic(auto, using(crate::proofs::Filing::filed_last))]
    pub fn seal(&mut self, parent: usize)
        requires room { vec_len self.old.chapters.later < vec_capacity self.old.chapters.later }
        ensures versions { volumes_of self.new ≡ volume parent None (open_entries self.old) ∷ volumes_of self.old }
        ensures group { open_entries self.new ≡ [] }
        ensures entries { self.new.entries ≡ self.old.entries }
        ensures runs { self.new.runs ≡ self.old.runs }
        ensures root { self.new.chapters.root ≡ self.old.chapters.root }
        ensures links { links_of self.new ≡ 0 ∷ links_of self.old }
        ensures capacity { vec_capacity self.new.chapters.later ≡ vec_capacity self.old.chapters.later }
    {
        let made = self.entries.len();
        self.chapters.later.push_reserved(Chapter {
            parent,
            favoured: None,
            first: self.sealed,
            count: made - self.sealed,
            link: 0,
        });
        self.sealed = made;
    }
}
