// The input of `inspect`: a network and then a timetable in one file, read into a sheet.
ghost use Rattle.std.specs.Prelude.{◌≡◌};
ghost use Rattle.timetable_files.specs.Inspect.{inspect_told, inspect_answer, inspect_after};

use base::refusal::{FileError, Refusal};
use network::Network;
use network_files::draft;
use timetable::FileForm;
use timetable_entries::rest;

/// The network, the place of the timetable's first byte and the place behind the file.
#[derive(Clone, Copy, Debug, PartialEq, Eq, Hash)]
pub struct InspectRead {
    pub network: Network,
    pub first: usize,
    pub place: usize,
}

/// The file's timetable, put into the sheet. 5, the file's first faulty number, 4, then 7 and 12 entry by entry; on each
/// of these the sheet is left as it was.
pub fn read_inspect(file: &[u8], sheet: &mut [u8]) -> Result<InspectRead, FileError>
    ensures { (inspect_told result ≡ inspect_answer file.now sheet.old)
        × (sheet.new ≡ inspect_after file.now sheet.old) }
{
    if sheet.len() != 8192 {
        return Err(FileError {
            refusal: Refusal::WrongLength,
            place: 0,
        });
    }
    let (head, first) = draft::read_draft(file)?;
    let network = head.network;
    match rest::read_rest(file, first, FileForm::Newest, &network, head.fault, sheet) {
        Ok(place) => Ok(InspectRead {
            network,
            first,
            place,
        }),
        Err(fault) => Err(fault),
    }
}
