// Why a document denies a call.
ghost use Rattle.std.specs.Prelude.{◌≡◌};
ghost use Rattle.ledger.specs.Denials.{number_of};

#[derive(Clone, Copy, PartialEq, Eq, Debug)]
pub enum Denial {
    CapacityOutOfRange = 1,
    TooFewRecords = 2,
    OriginalTooLong = 3,
    PastTheText = 4,
    Nothing = 5,
    AddedFull = 6,
    PiecesFull = 7,
    StepsFull = 8,
    RunsFull = 9,
    VersionsFull = 10,
    AtVersionZero = 11,
    NoChild = 12,
    NoVersion = 13,
    NoStep = 14,
    MarkNotSet = 15,
    NoMarkName = 16,
    NoLine = 17,
    GroupOpen = 18,
    NoGroup = 19,
}

impl Denial {
    // The number by which the denial is known.
    pub fn number(self) -> u8
        ensures { result ≡ number_of self }
    {
        self as u8
    }
}
