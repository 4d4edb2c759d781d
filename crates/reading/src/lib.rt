// Questions to a tree of pieces: places and elements by their offsets, numbers of pieces, lines, and totals of parts.
#![tactic(auto)]

mod counts;
mod elements;
mod ends;
mod lines;
mod reader;
mod totals;

pub use reader::{Counter, Reader};
