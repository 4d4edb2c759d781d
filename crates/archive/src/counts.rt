// How many versions, entries and kept runs an archive has.
ghost use Rattle.std.specs.Prelude.{◌≡◌, length};
ghost use Rattle.archive.specs.Archives.{entries_of, volumes_of};

use crate::Archive;

impl Archive {
    // The number of versions, version 0 included.
    #[tactic(auto, using(crate::proofs::Kept::versions_made))]
    pub fn version_count(&self) -> usize
        ensures { result ≡ length (volumes_of self.now) }
    {
        self.chapters.len()
    }

    // The number of entries.
    pub fn entry_count(&self) -> usize
        ensures { result ≡ length (entries_of self.now) }
    {
        self.entries.len()
    }

    // The number of kept runs that the entries have.
    pub fn run_count(&self) -> usize
        ensures { result ≡ self.now.runs }
    {
        self.runs
    }
}
