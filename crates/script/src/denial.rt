// Why a whole input is denied.
ghost use Rattle.std.specs.Prelude.{◌≡◌};
ghost use Rattle.script.specs.Denials.{number_of};

#[derive(Clone, Copy, PartialEq, Eq, Debug)]
pub enum SessionDenial {
    // the input has more bytes than are read
    InputTooLong = 20,
    // the input is empty, or its last byte is no line break
    NoFinalBreak = 21,
    // no line of the input is a single dot
    NoDotLine = 22,
}

impl SessionDenial {
    pub fn number(self) -> u8
        ensures { result ≡ number_of self }
    {
        self as u8
    }
}
