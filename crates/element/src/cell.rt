ghost use Rattle.std.specs.Prelude.{◌==◌};
ghost use Rattle.element.specs.Cells.{cell_of};
ghost use Rattle.std.proofs.Common.{rules};

use super::{Element, Hand};

// A byte together with the hand that typed it.
#[derive(Clone, Copy, Debug, PartialEq, Eq)]
pub struct Cell {
    pub shown: u8,
    pub hand: Hand,
}

impl Element for Cell {
    ghost breaks = { λ c. c.shown == 10 };

    ghost shown = { λ c. c.shown };

    ghost typist = { λ c. c.hand.value };

    ghost top = { 15 };

    ghost made = { cell_of };

    ghost made_breaks = { Prim.search rules };

    ghost made_shown = { Prim.search rules };

    ghost made_typist = { Prim.search rules };

    fn is_break(&self) -> bool {
        self.shown.is_break()
    }

    fn shown_byte(&self) -> u8 {
        self.shown
    }

    fn hand(&self) -> u8 {
        u8::from(self.hand)
    }

    fn top_hand() -> u8 {
        Hand::TOP
    }

    fn make(byte: u8, hand: u8) -> Cell {
        Cell {
            shown: byte,
            hand: Hand::new(hand),
        }
    }
}
