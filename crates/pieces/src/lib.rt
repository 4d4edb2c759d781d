// The pieces of a text in a tree: parts of the two sources and what they carry, a tree cut at an offset, and two trees sewn
// together where they touch.
#![tactic(auto)]

mod cutting;
mod parts;
mod sewing;

pub use cutting::cut;
pub use parts::{Sources, count_breaks};
pub use sewing::sew;
