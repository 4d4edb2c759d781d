// The archive of a document: the records of its versions and of their steps.
#![tactic(auto)]

ghost use Rattle.std.specs.Prelude.{◌≡◌, ◌≤◌, reverse, vec_len};
ghost use Rattle.archive.specs.Chapters.{by_number};
ghost use Rattle.archive.specs.Volumes.{Filed, Stored};

mod begin;
mod chapters;
mod counts;
mod entries;
pub mod types;
mod versions;

use crate::chapters::Chapters;
use crate::types::Entry;

// The first `sealed` entries are those of versions, any others those of an open group. `runs` is the number of kept runs that the
// entries have. Version 0 is its own parent and has no entries.
// There is no Model: clauses promise the very vectors, which go back to the caller in the end.
#[derive(Drop)]
pub struct Archive {
    chapters: Chapters,
    entries: Vec<Entry>,
    sealed: usize,
    runs: usize,
    ghost own_parent: { chapters.root.parent ≡ 0 },
    ghost no_entries: { chapters.root.count ≡ 0 },
    ghost filed: { ∥ Filed (reverse (by_number chapters)) sealed ∥₁ },
    ghost stored: { ∥ Stored (reverse entries.items) runs ∥₁ },
    ghost within: { sealed ≤ vec_len entries },
}
