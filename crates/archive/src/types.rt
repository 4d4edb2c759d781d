// The records of a history. They tell parts of vectors and hold none of their own: all memory is what the caller gave.
use ledger::words::Step;
use marks::table::Marks;

// A step that was made: the marks as they were before it, and which kept runs are its own: `kept` of them, from `first` on.
#[derive(Clone, Copy, Debug, PartialEq, Eq)]
pub struct Entry {
    pub step: Step,
    pub marks: Marks,
    pub first: usize,
    pub kept: usize,
}

// A version: `count` entries, from `first` on, made out of its parent. The link is scratch: a child that a way through the
// versions goes on to.
#[derive(Clone, Copy, Debug, PartialEq, Eq)]
pub struct Chapter {
    pub parent: usize,
    pub favoured: Option<usize>,
    // no Range: that is not Copy, and to index by one that is kept is to clone it, which may fail
    pub first: usize,
    pub count: usize,
    // no Option: a way writes each link before it reads it, so that no number has to stand for none
    pub link: usize,
}
