ghost use Rattle.std.specs.Prelude.{◌≡◌, ◌^◌, ◌<◌};

use super::{Measure, Total};
use element::Element;

// The number of elements whose hand is above 0, modulo 2^32.
#[derive(Clone, Copy, Debug, PartialEq, Eq)]
pub struct Tally {
    pub count: u32,
    ghost modular: { count < 2 ^ 32 },
}

impl Total for Tally {
    ghost use Rattle.measure.specs.Tallies.{none_typed, typed_joined};
    ghost use Rattle.measure.specs.TalliesLemmas.{typed_monoid};

    ghost neutral = { none_typed };

    ghost joined = { typed_joined };

    ghost monoid = { typed_monoid };

    fn empty() -> Tally {
        Tally { count: 0 }
    }

    fn join(self, after: Tally) -> Tally {
        Tally {
            count: self.count.wrapping_add(after.count),
        }
    }
}

impl<E: Element> Measure<E> for Tally {
    ghost use Rattle.measure.specs.Tallies.{one_typed};

    ghost value = { λ e. one_typed (E.typist e) };

    fn of(element: &E) -> Tally {
        Tally {
            count: u32::from(element.hand() > 0),
        }
    }
}
