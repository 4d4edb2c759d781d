ghost use Rattle.std.specs.Prelude.{◌≡◌, ◌^◌, ◌<◌};

use super::{Measure, Total};
use element::Element;

// The power of one element.
const BASE: u32 = 31;

// A polynomial fingerprint of shown bytes, modulo 2^32: the value of a part, and the power of the base by which the
// value of what stands before the part is multiplied when the two are joined.
#[derive(Clone, Copy, Debug, PartialEq, Eq)]
pub struct Fingerprint {
    pub power: u32,
    pub value: u32,
    ghost power_modular: { power < 2 ^ 32 },
    ghost value_modular: { value < 2 ^ 32 },
}

impl Total for Fingerprint {
    ghost use Rattle.measure.specs.Fingerprints.{bytes_joined, no_bytes};
    ghost use Rattle.measure.specs.FingerprintsLemmas.{bytes_monoid};

    ghost neutral = { no_bytes };

    ghost joined = { bytes_joined };

    ghost monoid = { bytes_monoid };

    fn empty() -> Fingerprint {
        Fingerprint { power: 1, value: 0 }
    }

    fn join(self, after: Fingerprint) -> Fingerprint {
        let raised = self.value.wrapping_mul(after.power);
        Fingerprint {
            power: self.power.wrapping_mul(after.power),
            value: raised.wrapping_add(after.value),
        }
    }
}

impl<E: Element> Measure<E> for Fingerprint {
    ghost use Rattle.measure.specs.Fingerprints.{one_byte};

    ghost value = { λ e. one_byte (E.shown e) };

    fn of(element: &E) -> Fingerprint {
        Fingerprint {
            power: BASE,
            value: u32::from(element.shown_byte()) + 1,
        }
    }
}
