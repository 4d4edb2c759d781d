// Measures: a total for every part of a text, such that the total of two parts, one after the other, is the join
// of their totals.
#![tactic(auto)]

ghost use Rattle.std.specs.Prelude.{◌≡◌, List, ◌++◌};
ghost use Rattle.measure.specs.Totals.{Monoid, total};

mod fingerprint;
mod pair;
mod tally;

pub use fingerprint::Fingerprint;
pub use pair::Pair;
pub use tally::Tally;

// The totals of a measure: what they are for no elements, and for two parts, one after the other. What keeps totals of
// parts needs no more than this, and knows no elements.
pub trait Total: Copy {
    // The total of no elements.
    ghost neutral: { Self };

    // The total of two parts, one after the other.
    ghost joined: { Self → Self → Self };

    fn empty() -> Self
        ensures { result ≡ neutral };

    fn join(self, after: Self) -> Self
        ensures { result ≡ joined self after };

    // The join is associative, and the empty total is neutral on both sides.
    ghost monoid: { Monoid neutral joined };
}

// A measure over the elements E, implemented by the type of its totals.
pub trait Measure<E>: Total {
    // The total of one element.
    ghost value: { E → Self };

    fn of(element: &E) -> Self
        ensures { result ≡ value element.now };
}

// The total of a part. Wherever the part is cut in two, it is also the join of the totals of both.
pub fn fold<E, T: Measure<E>>(part: &[E]) -> T
    ensures whole { result ≡ total T.neutral T.value T.joined part.now }
    ensures cut { (front back : List E) → part.now ≡ front ++ back
        → result ≡ T.joined (total T.neutral T.value T.joined front) (total T.neutral T.value T.joined back) }
{
    part.iter()
        .fold(T::empty(), |sum, element| sum.join(T::of(element)))
}

#[cfg(test)]
mod tests {
    use super::*;
    use element::{Cell, Element};

    const COPY: &[u8] = b"ab\ncd\n";

    const FIRST_LINE: Fingerprint = Fingerprint {
        power: 29791,
        value: 97258,
    };

    #[test]
    fn an_empty_part_has_the_empty_total(rt: HostRuntime) {
        let none: Fingerprint = fold(&COPY[..0]);
        assert_eq!(rt; none, Fingerprint { power: 1, value: 0 });
    }

    #[test]
    fn the_first_line_has_its_fingerprint(rt: HostRuntime) {
        let line: Fingerprint = fold(&COPY[..3]);
        assert_eq!(rt; line, FIRST_LINE);
    }

    #[test]
    fn totals_of_parts_join_to_that_of_the_whole(rt: HostRuntime) {
        let whole: Fingerprint = fold(COPY);
        for cut in 0..=COPY.len() {
            let (front, back) = COPY.split_at(cut);
            let joined = fold::<u8, Fingerprint>(front).join(fold(back));
            assert_eq!(rt; joined, whole);
        }
    }

    #[test]
    fn a_tally_counts_the_hands_above_zero(rt: HostRuntime) {
        let cells = [
            Cell::make(b'a', 0),
            Cell::make(b'b', 1),
            Cell::make(b'\n', 15),
        ];
        let both: Pair<Fingerprint, Tally> = fold(&cells);
        let wanted = Pair {
            first: FIRST_LINE,
            second: Tally { count: 2 },
        };
        assert_eq!(rt; both, wanted);
    }

    #[test]
    fn totals_are_joined_modulo_two_to_the_32(rt: HostRuntime) {
        let top = Fingerprint {
            power: u32::MAX,
            value: u32::MAX,
        };
        assert_eq!(rt; top.join(top), Fingerprint { power: 1, value: 0 });
        assert_eq!(rt;
            Tally { count: u32::MAX }.join(Tally { count: 2 }),
            Tally { count: 1 }
        );
    }
}
