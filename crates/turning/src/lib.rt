// Network files of an earlier form, turned into the newest.
#![tactic(auto)]

ghost use Rattle.std.specs.Prelude.{◌≡◌};
ghost use Rattle.timetable.specs.Turning.{turn_reply, turn_after};
ghost use Rattle.turning.specs.declared.TurnError.{TurnError};
ghost use Rattle.turning.specs.Answers.{turn_error, reply};

use base::refusal::{FileError, OutputError};
use network_files::reading::read_network_as;
use network_writing::writing::write_network;
use timetable::NetworkForm;

/// Why a file is not turned.
#[derive(Clone, Copy, Debug, PartialEq, Eq, Hash)]
pub enum TurnError {
    /// The old file is refused.
    InFile(FileError),
    /// The buffer is too short: the length that is needed.
    TooShort(usize),
}

impl From<FileError> for TurnError {
    ghost use Rattle.turning.specs.declared.TurnError.{TurnError};

    ghost from_gives = { λ f e. e ≡ TurnError.InFile f };

    fn from(error: FileError) -> TurnError {
        TurnError::InFile(error)
    }
}

// What refuses a network of a file is told at the file's head.
impl From<OutputError> for TurnError {
    ghost from_gives = { λ o e. e ≡ turn_error o };

    fn from(error: OutputError) -> TurnError {
        match error {
            OutputError::Refused(refusal) => TurnError::InFile(FileError { refusal, place: 0 }),
            OutputError::TooShort(needed) => TurnError::TooShort(needed),
        }
    }
}

/// "An old network file, its closures kept, is turned into a new one by giving both times the old number". How many
/// bytes it wrote, from the buffer's start. 1, 2, 3, 14, 4, 13.
pub fn turn(file: &[u8], form: NetworkForm, out: &mut [u8]) -> Result<usize, TurnError>
    ensures { (reply result ≡ turn_reply form file.now out.old) × (out.new ≡ turn_after form file.now out.old) }
{
    let (network, _) = read_network_as(file, form)?;
    Ok(write_network(&network, out)?)
}
