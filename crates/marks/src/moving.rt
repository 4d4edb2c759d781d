// How one mark moves where text is inserted and deleted.
// An offset and a count are two numbers, as a step has them: a struct of both would be made for each call and taken apart in it.
ghost use Rattle.std.specs.Prelude.{◌≡◌, ◌+◌, ◌^◌, ◌<◌, ◌&&◌, ◌||◌, ◌==◌, nat_lt};
ghost use Rattle.ledger.specs.Steps.{is_right, shifted, pulled};

use ledger::words::{Gravity, Mark, Offset};

// Whether an insert at `offset` moves a mark: one behind it, and one at it whose gravity is right.
fn is_pushed(mark: Mark, offset: usize) -> bool
    ensures { result ≡ (nat_lt offset mark.offset.0 || (mark.offset.0 == offset && is_right mark.gravity)) }
{
    match mark.gravity {
        Gravity::Left => offset < mark.offset.0,
        Gravity::Right => offset <= mark.offset.0,
    }
}

// The mark after an insert of `count` elements at `offset`.
pub fn after_insert(mark: Mark, offset: usize, count: usize) -> Mark
    requires { mark.offset.0 + count < 2 ^ 64 }
    ensures { result ≡ shifted offset count mark }
{
    if is_pushed(mark, offset) {
        Mark {
            offset: Offset(mark.offset.0 + count),
            ..mark
        }
    } else {
        mark
    }
}

// The mark after a delete of `count` elements at `offset`.
pub fn after_delete(mark: Mark, offset: usize, count: usize) -> Mark
    requires { offset + count < 2 ^ 64 }
    ensures { result ≡ pulled offset count mark }
{
    let place = if mark.offset.0 <= offset {
        mark.offset.0
    } else if mark.offset.0 < offset + count {
        offset
    } else {
        mark.offset.0 - count
    };
    Mark {
        offset: Offset(place),
        ..mark
    }
}
