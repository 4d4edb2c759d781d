ghost use Rattle.std.specs.Prelude.{◌≡◌};
ghost use Rattle.measure.specs.Pairs.{side_by_side};
ghost use Rattle.std.proofs.Common.{rules};

use super::{Measure, Total};

// Two totals side by side.
#[derive(Clone, Copy, Debug, PartialEq, Eq)]
pub struct Pair<A, B> {
    pub first: A,
    pub second: B,
}

impl<A: Total, B: Total> Total for Pair<A, B> {
    ghost neutral = { side_by_side A.Total.neutral B.Total.neutral };

    ghost joined = { λ x y. side_by_side (A.Total.joined x.first y.first) (B.Total.joined x.second y.second) };

    ghost monoid = { Prim.search rules };

    fn empty() -> Pair<A, B> {
        Pair {
            first: A::empty(),
            second: B::empty(),
        }
    }

    fn join(self, after: Pair<A, B>) -> Pair<A, B> {
        Pair {
            first: self.first.join(after.first),
            second: self.second.join(after.second),
        }
    }
}

impl<E, A: Measure<E>, B: Measure<E>> Measure<E> for Pair<A, B> {
    ghost value = { λ e. side_by_side (A.Measure.value e) (B.Measure.value e) };

    fn of(element: &E) -> Pair<A, B> {
        Pair {
            first: A::of(element),
            second: B::of(element),
        }
    }
}
