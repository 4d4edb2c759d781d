// Seeking in a tree of pieces: the piece that holds an offset or a break, with what lies before it, and the tree's depth.
#![tactic(auto)]

mod count;
mod deepest;
mod seek;
mod types;

pub use deepest::depth;
pub use seek::{find, find_break, summary};
pub use types::Found;
