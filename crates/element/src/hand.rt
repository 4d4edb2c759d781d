ghost use Rattle.std.specs.Prelude.{◌≡◌, ◌≤◌};

// One of the sixteen hands 0 to 15.
#[derive(Clone, Copy, Debug, PartialEq, Eq)]
pub struct Hand {
    value: u8,
    ghost small: { value ≤ 15 },
}

impl Hand {
    ghost use Rattle.element.specs.Cells.{hand_of};

    pub const TOP: u8 = 15;

    // The hand of a number, or the top hand where the number is above it: this caps, so it is no `From`.
    pub fn new(number: u8) -> Hand
        ensures { result ≡ hand_of number }
    {
        Hand {
            value: number.min(Hand::TOP),
        }
    }
}

// The number of a hand.
impl From<Hand> for u8 {
    ghost from_gives = { λ hand number. number ≡ hand.value };

    fn from(hand: Hand) -> u8 {
        hand.value
    }
}
