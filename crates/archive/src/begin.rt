// Beginning an archive, and giving its memory back.
ghost use Rattle.std.specs.Prelude.{◌≡◌, [], ◌∷◌, None, vec_capacity};
ghost use Rattle.archive.specs.Archives.{entries_of, links_of, open_entries, volumes_of};
ghost use Rattle.archive.specs.Volumes.{volume};

use crate::Archive;
use crate::chapters::Chapters;
use crate::types::{Chapter, Entry};

impl Archive {
    // An archive of version 0 alone.
    pub fn begin(mut chapters: Vec<Chapter>, mut entries: Vec<Entry>) -> Archive
        ensures versions { volumes_of result ≡ volume 0 None [] ∷ [] }
        ensures entries { (entries_of result ≡ []) × (open_entries result ≡ []) }
        ensures links { links_of result ≡ 0 ∷ [] }
        ensures runs { (result.runs ≡ 0) × (result.sealed ≡ 0) }
        ensures capacity { (vec_capacity result.chapters.later ≡ vec_capacity chapters) × (vec_capacity result.entries ≡ vec_capacity entries) }
    {
        chapters.clear();
        entries.clear();
        let root = Chapter {
            parent: 0,
            favoured: None,
            first: 0,
            count: 0,
            link: 0,
        };
        Archive {
            chapters: Chapters {
                root,
                later: chapters,
            },
            entries,
            sealed: 0,
            runs: 0,
        }
    }

    // The memory of an archive.
    pub fn into_memory(self) -> (Vec<Chapter>, Vec<Entry>)
        ensures { (result.0 ≡ self.chapters.later) × (result.1 ≡ self.entries) }
    {
        let Archive {
            chapters,
            entries,
            ..
        } = self;
        (chapters.later, entries)
    }
}
