// Refusals: why a file, a buffer or an edit is turned down, and what a call answers that turns one down.
ghost use Rattle.std.specs.Prelude.{◌≡◌};
ghost use Rattle.base.specs.RefusalNumbers.{number_of, HasNumber};

/// Why a file, a buffer or an edit is turned down; each case has its number.
#[derive(Clone, Copy, Debug, PartialEq, Eq, Hash)]
pub enum Refusal {
    EndsOrGoesOn = 1,
    NotShortest = 2,
    OutOfRange = 3,
    NotJoined = 4,
    WrongLength = 5,
    BadSheet = 6,
    NotKnown = 7,
    ThereAlready = 8,
    Missing = 9,
    LinkedOtherwise = 10,
    AltersOccurred = 11,
    LimitReached = 12,
    OutputTooShort = 13,
    ClosureBackwards = 14,
    FromTheFuture = 15,
}

/// A refusal of a file, with the place of the faulty number's first byte.
#[derive(Clone, Copy, Debug, PartialEq, Eq, Hash)]
pub struct FileError {
    pub refusal: Refusal,
    pub place: usize,
}

/// Why a call that fills a lent buffer wrote nothing.
#[derive(Clone, Copy, Debug, PartialEq, Eq, Hash)]
pub enum OutputError {
    Refused(Refusal),
    /// The buffer is too short: the length that is needed.
    TooShort(usize),
}

impl From<Refusal> for OutputError {
    ghost use Rattle.base.specs.declared.refusal.OutputError.{OutputError};

    ghost from_gives = { λ r e. e ≡ OutputError.Refused r };

    fn from(refusal: Refusal) -> OutputError {
        OutputError::Refused(refusal)
    }
}

impl From<Refusal> for u8 {
    ghost from_gives = { λ r n. n ≡ number_of r };

    fn from(refusal: Refusal) -> u8 {
        refusal as u8
    }
}

/// A number that no refusal has.
#[derive(Clone, Copy, Debug, PartialEq, Eq, Hash)]
pub struct UnknownRefusal(pub u8);

impl TryFrom<u8> for Refusal {
    type Error = UnknownRefusal;

    ghost try_from_gives = { HasNumber };

    fn try_from(number: u8) -> Result<Refusal, UnknownRefusal> {
        match number {
            1 => Ok(Refusal::EndsOrGoesOn),
            2 => Ok(Refusal::NotShortest),
            3 => Ok(Refusal::OutOfRange),
            4 => Ok(Refusal::NotJoined),
            5 => Ok(Refusal::WrongLength),
            6 => Ok(Refusal::BadSheet),
            7 => Ok(Refusal::NotKnown),
            8 => Ok(Refusal::ThereAlready),
            9 => Ok(Refusal::Missing),
            10 => Ok(Refusal::LinkedOtherwise),
            11 => Ok(Refusal::AltersOccurred),
            12 => Ok(Refusal::LimitReached),
            13 => Ok(Refusal::OutputTooShort),
            14 => Ok(Refusal::ClosureBackwards),
            15 => Ok(Refusal::FromTheFuture),
            _ => Err(UnknownRefusal(number)),
        }
    }
}
