// What a piece is sought by: elements, or breaks.
ghost use Rattle.std.specs.Prelude.{◌≡◌, ℕ, ◌+◌};
ghost use Rattle.std.proofs.Common.{rules};

// A count over pieces, by how many elements and breaks they have.
pub trait Count {
    ghost counted: { ℕ → ℕ → ℕ };

    fn of(elements: usize, breaks: usize) -> usize
        ensures { result ≡ counted elements breaks };

    // Nothing counts nothing, and neighbours together count what each of them does.
    ghost nothing: { counted 0 0 ≡ 0 };

    ghost adds: { (e f b c : ℕ) → counted (e + f) (b + c) ≡ counted e b + counted f c };
}

// By an offset, elements are counted.
pub struct Elements;

impl Count for Elements {
    ghost counted = { λ elements breaks. elements };

    ghost nothing = { Prim.search rules };

    ghost adds = { Prim.search rules };

    fn of(elements: usize, _breaks: usize) -> usize {
        elements
    }
}

// By the number of a break, breaks are.
pub struct Breaks;

impl Count for Breaks {
    ghost counted = { λ elements breaks. breaks };

    ghost nothing = { Prim.search rules };

    ghost adds = { Prim.search rules };

    fn of(_elements: usize, breaks: usize) -> usize {
        breaks
    }
}
