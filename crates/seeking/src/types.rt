// What seeking finds.
use nodes::{Item, Sums};

// An item, how far into its piece the sought lies, and what all pieces before it have together.
#[derive(Clone, Copy, PartialEq, Eq, Debug)]
pub struct Found<P, T> {
    pub item: Item<P, T>,
    pub inner: usize,
    pub before: Sums<T>,
}
