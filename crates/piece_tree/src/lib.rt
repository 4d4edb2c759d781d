// Piece trees: the pieces of a text in its order, in a balanced tree that is joined and split.
#![tactic(auto)]

mod joining;
mod splitting;
mod types;

pub use types::{PieceTree, Split};
