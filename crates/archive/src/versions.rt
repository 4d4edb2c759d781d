// Versions by their numbers: parent, favoured child, entries and links.
// The numbers are plain, as in the lists that an archive stands for: of a newtype each clause would only take its number.
// Each call asks that its version is made: a number that carried this could not say of which archive.
#![tactic(auto, using(crate::proofs::Kept::chapters_found))]

ghost use Rattle.std.specs.Prelude.{◌≡◌, ◌<◌, reverse, length};
ghost use Rattle.archive.specs.Archives.{links_of, volumes_of, SameEntries};
ghost use Rattle.archive.specs.Volumes.{entries_in, favoured_in, favouring_at, link_at, linking_at, parent_in, volume_at};

use crate::Archive;
use crate::types::Entry;

impl Archive {
    // The parent of a version; 0 for version 0.
    pub fn parent(&self, version: usize) -> usize
        requires made { version < length (volumes_of self.now) }
        ensures { result ≡ parent_in (volume_at version (volumes_of self.now)) }
    {
        self.chapters.get(version).parent
    }

    // The favoured child of a version, where it has one.
    pub fn favoured(&self, version: usize) -> Option<usize>
        requires made { version < length (volumes_of self.now) }
        ensures { result ≡ favoured_in (volume_at version (volumes_of self.now)) }
    {
        self.chapters.get(version).favoured
    }

    // The entries of a version, the oldest first.
    pub fn entries(&self, version: usize) -> &[Entry]
        requires made { version < length (volumes_of self.now) }
        ensures { reverse result.now ≡ entries_in (volume_at version (volumes_of self.now)) }
    {
        let chapter = self.chapters.get(version);
        let stop = chapter.first + chapter.count;
        &self.entries[chapter.first..stop]
    }

    // Makes a child the favoured one of a version.
    #[tactic(auto, using(crate::proofs::Kept::chapters_favoured))]
    pub fn favour(&mut self, version: usize, child: usize)
        requires made { version < length (volumes_of self.old) }
        ensures versions { volumes_of self.new ≡ favouring_at version child (volumes_of self.old) }
        ensures links { links_of self.new ≡ links_of self.old }
        ensures same { SameEntries self.old self.new }
    {
        self.chapters.get_mut(version).favoured = Some(child);
    }

    // The link of a version.
    pub fn link(&self, version: usize) -> usize
        requires made { version < length (volumes_of self.now) }
        ensures { result ≡ link_at version (links_of self.now) }
    {
        self.chapters.get(version).link
    }

    // Links a version to another.
    #[tactic(auto, using(crate::proofs::Kept::chapters_linked))]
    pub fn set_link(&mut self, version: usize, next: usize)
        requires made { version < length (volumes_of self.old) }
        ensures links { links_of self.new ≡ linking_at version next (links_of self.old) }
        ensures versions { volumes_of self.new ≡ volumes_of self.old }
        ensures same { SameEntries self.old self.new }
    {
        self.chapters.get_mut(version).link = next;
    }
}
