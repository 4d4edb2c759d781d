// The places of a tree of pieces: put together over two sides with the sums of all in the order of the text, taken apart,
// painted and read; and the stock that they come from and go back to.
#![tactic(auto)]

mod place;
mod stock;
mod types;

pub use place::{blacken, is_red, link, sums, unlink};
pub use stock::{draw, fill, recycle};
pub use types::{Colour, Item, Node, Sums, Tree};
