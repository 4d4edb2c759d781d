// A text with its marks: steps made, and taken back.
#![tactic(auto)]

ghost use Rattle.marks.specs.Bounds.{Inside};
ghost use Rattle.marks.specs.Tables.{marks_of};
ghost use Rattle.content.specs.Props.{inside_prop};
ghost use Rattle.text.specs.Texts.{text_places};

mod steps;

use element::Element;
use marks::table::Marks;
use measure::Measure;
use text::Text;

// A text and its marks, which all lie within it.
#[derive(Drop)]
pub struct Sheet<'o, E: Element, T: Measure<E>> {
    pub text: Text<'o, E, T>,
    pub marks: Marks,
    ghost inside: { Inside (record { places = text_places text; marks = marks_of marks }) } by { inside_prop (record { places = text_places text; marks = marks_of marks }) },
}
