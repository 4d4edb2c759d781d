// Offsets, lines, versions, marks, places, pieces, steps and capacities.
ghost use Rattle.std.specs.Prelude.{◌≡◌};
ghost use Rattle.ledger.specs.Names.{is_name};

// How many elements stand before a place in the text.
#[derive(Clone, Copy, PartialEq, Eq, PartialOrd, Ord, Debug)]
pub struct Offset(pub usize);

// The number of a line; the first is 1.
#[derive(Clone, Copy, PartialEq, Eq, PartialOrd, Ord, Debug)]
pub struct LineNumber(pub usize);

// The number of a version; the one that a document begins with is 0.
#[derive(Clone, Copy, PartialEq, Eq, PartialOrd, Ord, Debug)]
pub struct VersionNumber(pub usize);

// Whether a mark stays before or goes behind what is inserted at its offset.
#[derive(Clone, Copy, PartialEq, Eq, Debug)]
pub enum Gravity {
    Left,
    Right,
}

#[derive(Clone, Copy, PartialEq, Eq, Debug)]
pub struct Mark {
    pub offset: Offset,
    pub gravity: Gravity,
}

// Whether a byte names a mark: a to z.
pub fn is_mark_name(byte: u8) -> bool
    ensures { result ≡ is_name byte }
{
    byte.is_ascii_lowercase()
}

// Where elements are kept: in the read-only original, or in the added source, which grows at its end.
#[derive(Clone, Copy, PartialEq, Eq, Debug)]
pub enum Source {
    Original,
    Added,
}

// Where one element of the text is kept.
#[derive(Clone, Copy, PartialEq, Eq, Debug)]
pub struct Place {
    pub source: Source,
    pub index: usize,
}

// A stretch of text with places in one source and indexes rising by one.
#[derive(Clone, Copy, PartialEq, Eq, Debug)]
pub struct Piece {
    pub source: Source,
    pub start: usize,
    pub length: usize,
}

// One change of text or marks.
#[derive(Clone, Copy, PartialEq, Eq, Debug)]
pub enum Step {
    // puts `length` elements, kept in the added source from `start` on, behind the first `offset` elements
    Insert {
        offset: usize,
        length: usize,
        start: usize,
    },
    // removes `length` elements behind the first `offset`
    Delete {
        offset: usize,
        length: usize,
    },
    // gives a mark its place, and replaces an older one of that name
    SetMark {
        name: u8,
        mark: Mark,
    },
    DropMark {
        name: u8,
    },
}

// How much a document may hold.
#[derive(Clone, Copy, PartialEq, Eq, Debug)]
pub struct Capacities {
    // added elements
    pub added: usize,
    pub pieces: usize,
    // versions, version 0 included
    pub versions: usize,
    pub steps: usize,
    // kept runs: pieces of deleted parts
    pub runs: usize,
}
