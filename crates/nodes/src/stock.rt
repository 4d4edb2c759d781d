// The stock of places: boxes are made once, drawn for new pieces, and given back.
// That a call leaves its capacity as it was is a clause of `draw` and `recycle`: the type of a Vec says nothing of it.
ghost use Rattle.std.specs.Prelude.{◌≡◌, ℕ, ◌+◌, ◌<◌, ◌≤◌, length, IfOk, vec_len, vec_capacity};
ghost use Rattle.nodes.specs.Trees.{items, Bare};

use crate::place::unlink;
use crate::types::{Item, Node, Tree};
use measure::Total;
use std::alloc::{AllocError, Global};

// A stock of so many places, with room for no fewer. The item is only there to be replaced.
pub fn fill<P: Copy, T: Total>(
    alloc: Global,
    count: usize,
    blank: Item<P, T>,
) -> Result<Vec<Box<Node<P, T>>>, AllocError>
    ensures { IfOk result (λ stock. (vec_len stock ≡ count) × (count ≤ vec_capacity stock)) }
{
    let mut stock = Vec::new(alloc);
    stock.try_resize_with(count, || {
        Box::new(alloc, Node::bare(blank)).map_err(AllocError::from)
    })?;
    Ok(stock)
}

// A place of the stock, with this item.
pub fn draw<P: Copy, T: Total>(
    stock: &mut Vec<Box<Node<P, T>>>,
    item: Item<P, T>,
) -> Box<Node<P, T>>
    requires some { 0 < vec_len stock.old }
    ensures bare { Bare result.value }
    ensures item { result.value.item ≡ item }
    ensures len { vec_len stock.new + 1 ≡ vec_len stock.old }
    ensures capacity { vec_capacity stock.new ≡ vec_capacity stock.old }
{
    let mut place = stock.pop().unwrap();
    *place = Node::bare(item);
    place
}

// Gives all places of a tree back to a stock that has room for them.
pub fn recycle<P: Copy, T: Total>(tree: Tree<P, T>, stock: &mut Vec<Box<Node<P, T>>>)
    requires room { vec_len stock.old + length (items tree) ≤ vec_capacity stock.old }
    ensures len { vec_len stock.new ≡ vec_len stock.old + length (items tree) }
    ensures capacity { vec_capacity stock.new ≡ vec_capacity stock.old }
{
    match tree {
        Tree::Empty => {}
        Tree::Place(place) => {
            let (place, left, right) = unlink(place);
            recycle(left, stock);
            stock.push_reserved(place);
            recycle(right, stock);
        }
    }
}
