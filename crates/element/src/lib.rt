// Elements: what a text consists of. An element tells whether it ends a line, which byte it shows, and which hand
// typed it. A hand is a number that says who typed an element: 0 is the set text's, 1 the candidate's.
#![tactic(auto)]

ghost use Rattle.std.specs.Prelude.{◌≡◌, ℕ, min, Bool, ◌==◌};
ghost use Rattle.std.proofs.Common.{rules};

mod cell;
mod hand;

pub use cell::Cell;
pub use hand::Hand;

pub trait Element: Copy {
    // Whether the element ends a line.
    ghost breaks: { Self → Bool };

    // The byte that the element shows.
    ghost shown: { Self → ℕ };

    // The hand that typed it.
    ghost typist: { Self → ℕ };

    // The greatest hand that an element of this kind can have.
    ghost top: { ℕ };

    // The element of this kind that shows a byte and was typed by a hand.
    ghost made: { ℕ → ℕ → Self };

    fn is_break(&self) -> bool
        ensures { result ≡ breaks self.now };

    fn shown_byte(&self) -> u8
        ensures { result ≡ shown self.now };

    fn hand(&self) -> u8
        ensures { result ≡ typist self.now };

    fn top_hand() -> u8
        ensures { result ≡ top };

    fn make(byte: u8, hand: u8) -> Self
        ensures { result ≡ made byte hand };

    ghost made_breaks: { (byte hand : ℕ) → breaks (made byte hand) ≡ (byte == 10) };

    ghost made_shown: { (byte hand : ℕ) → shown (made byte hand) ≡ byte };

    ghost made_typist: { (byte hand : ℕ) → typist (made byte hand) ≡ min hand top };
}

// The hand of every byte.
const ONLY_HAND: u8 = 0;

// A byte shows itself, and has no hand but 0.
impl Element for u8 {
    ghost breaks = { λ b. b == 10 };

    ghost shown = { λ b. b };

    ghost typist = { λ _. 0 };

    ghost top = { 0 };

    ghost made = { λ byte _. byte };

    ghost made_breaks = { Prim.search rules };

    ghost made_shown = { Prim.search rules };

    ghost made_typist = { Prim.search rules };

    fn is_break(&self) -> bool {
        self.shown_byte() == b'\n'
    }

    fn shown_byte(&self) -> u8 {
        *self
    }

    fn hand(&self) -> u8 {
        ONLY_HAND
    }

    fn top_hand() -> u8 {
        ONLY_HAND
    }

    fn make(byte: u8, _hand: u8) -> u8 {
        byte
    }
}

#[cfg(test)]
mod tests {
    use super::*;

    #[test]
    fn a_byte_shows_itself(rt: HostRuntime) {
        let made = u8::make(b'x', 9);
        assert_eq!(rt; made, b'x');
        assert_eq!(rt; made.shown_byte(), b'x');
        assert_eq!(rt; made.hand(), 0);
        assert!(rt; !made.is_break());
        assert!(rt; b'\n'.is_break());
        assert!(rt; !b'\r'.is_break());
    }

    #[test]
    fn a_cell_keeps_its_hand_up_to_fifteen(rt: HostRuntime) {
        assert_eq!(rt; Cell::make(b'x', 14).hand(), 14);
        assert_eq!(rt; Cell::make(b'x', 15).hand(), 15);
        assert_eq!(rt; Cell::make(b'x', 16).hand(), 15);
        assert_eq!(rt; Cell::make(b'x', 255).hand(), 15);
        assert!(rt; Cell::make(b'\n', 1).is_break());
        assert!(rt; !Cell::make(0, 10).is_break());
    }

    #[test]
    fn cells_are_equal_by_byte_and_hand(rt: HostRuntime) {
        assert_eq!(rt; Cell::make(b'x', 16), Cell::make(b'x', 15));
        assert_ne!(rt; Cell::make(b'x', 14), Cell::make(b'x', 15));
        assert_ne!(rt; Cell::make(b'x', 1), Cell::make(b'y', 1));
        assert_eq!(rt; u8::from(Hand::new(7)), 7);
    }
}
