// The chapters of all versions, by the versions' numbers.
ghost use Rattle.std.specs.Prelude.{◌≡◌, ◌<◌, length};
ghost use Rattle.std.specs.Borrow.{sem};
ghost use Rattle.archive.specs.Chapters.{by_number, chapter_of, LendsChapter};

use crate::types::Chapter;

// The chapter of version 0 is a field, for it stands even where no memory was given. `get` and `get_mut` alone tell it from the
// others.
#[derive(Drop)]
pub struct Chapters {
    pub root: Chapter,
    pub later: Vec<Chapter>,
}

impl Chapters {
    // The number of versions, version 0 included.
    pub fn len(&self) -> usize
        ensures { result ≡ length (by_number self.now) }
    {
        self.later.len() + 1
    }

    // The chapter of a version.
    pub fn get(&self, version: usize) -> &Chapter
        requires { version < length (by_number self.now) }
        ensures { result.now ≡ chapter_of self.now version }
    {
        if version == 0 {
            &self.root
        } else {
            &self.later[version - 1]
        }
    }

    // The chapter of a version, to be changed: beside `get`, as a slice has both.
    pub fn get_mut(&mut self, version: usize) -> &mut Chapter
        requires { version < length (by_number self.old) }
        ensures* writes_back { sem 𝓛 (LendsChapter self.entry version result) }
        ensures value { result.now ≡ chapter_of self.old version }
    {
        if version == 0 {
            &mut self.root
        } else {
            &mut self.later[version - 1]
        }
    }
}
