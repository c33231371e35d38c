// The input of `shift`: "network, then edits". The first faulty number of the whole file comes before 4.
ghost use Rattle.std.specs.Prelude.{◌≡◌, length};
ghost use Rattle.timetable.specs.EditsFile.{read_shift};
ghost use Rattle.edit_files.specs.Answers.{whole_outcome, shift_listed};

use crate::list::{EditList, edits_part};
use base::refusal::FileError;
use fields::field::ended;
use network::Network;
use network_files::draft::read_draft;
use timetable::FileForm;

/// A network, and the list of the edits behind it.
#[derive(Clone, Copy, Debug, PartialEq, Eq, Hash)]
pub struct ShiftInput {
    pub network: Network,
    pub edits: EditList,
}

/// The input of `shift`. Nothing stands behind it.
pub fn read_shift(file: &[u8]) -> Result<ShiftInput, FileError>
    ensures { whole_outcome (length file.now) result ≡ shift_listed (read_shift file.now) }
{
    let (draft, place) = read_draft(file)?;
    let (edits, end) = edits_part(file, place, FileForm::Newest)?;
    ended(file, end)?;
    match draft.fault {
        Some(fault) => Err(fault),
        None => Ok(ShiftInput {
            network: draft.network,
            edits,
        }),
    }
}
