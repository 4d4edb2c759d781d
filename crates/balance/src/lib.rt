// Balancing by joining: a red-black tree and one no taller become one tree around a place between them.
#![tactic(auto)]

mod join;
mod side;

pub use join::{join_left, join_right};
