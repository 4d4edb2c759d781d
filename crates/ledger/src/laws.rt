// The laws of the rules. A law has no work to do: it stands in a function's contract, so that the check asks for its proof.
ghost use Rattle.std.specs.Prelude.{◌≡◌, true, length};
ghost use Rattle.measure.specs.Totals.{total};
ghost use Rattle.ledger.specs.Calls.{redoing, undoing};
ghost use Rattle.ledger.specs.Legal.{AlwaysLegal, TakesBack};
ghost use Rattle.ledger.specs.Laws.{Retracting, Striking, Unchanging};
ghost use Rattle.ledger.specs.Moments.{Stands};
ghost use Rattle.ledger.specs.Cases.{Worked, all_cases};

use element::Element;
use measure::Measure;

// In every worked case the rules answer what is written there. Gives the number of cases.
pub fn worked_cases() -> usize
    ensures law { Worked }
    ensures count { result ≡ length all_cases }
{
    24
}

// The laws of the rules, over any calls.
pub fn rules_hold<E: Element, T: Measure<E>>() -> bool
    // a denied call changes nothing, and neither does a question
    ensures unchanging { Unchanging E.breaks }
    // retracting a step gives the ledger before it
    ensures retracting { Retracting E.breaks }
    // a cancelled group can be struck out of any list of calls: every call left gets the same answer
    ensures striking { Striking E.breaks (total T.neutral T.value T.joined) }
    // with no group open, text and marks are those that stood when the current version was made; and so stand those of every
    // version, whichever is current
    ensures standing { Stands E.breaks }
    // every ledger that calls reach is legal: steps fit the texts they met, each text on a path is within its capacity, and no
    // count passes its own
    ensures legal { AlwaysLegal E.breaks }
    // redo takes an undo back, and undo a redo
    ensures redone { TakesBack E.breaks undoing redoing }
    ensures undone { TakesBack E.breaks redoing undoing }
    ensures held { result ≡ true }
{
    true
}
