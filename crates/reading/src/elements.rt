// Elements by their offsets.
ghost use Rattle.std.specs.Prelude.{◌≡◌, ◌+◌, ◌<◌, ◌∷◌, drop};
ghost use Rattle.nodes.specs.Trees.{long};
ghost use Rattle.reading.specs.Readers.{read};

use crate::reader::Reader;
use measure::Total;
use seeking::find;

impl<'t, E: Copy, T: Total> Reader<'t, E, T> {
    // The element at an offset.
    pub fn element_at(&self, offset: usize) -> E
        requires within { offset < long self.now.tree.now }
        ensures { drop offset (read self.now) ≡ result ∷ drop (offset + 1) (read self.now) }
    {
        let found = find(self.tree, offset);
        let part = self.sources.part(found.item.piece, found.item.length);
        part[found.inner]
    }
}
