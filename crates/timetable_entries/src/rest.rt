// A timetable from a place of a file to its end, in the form that is named, read into a sheet.
ghost use Rattle.std.specs.Prelude.{◌≡◌, ℕ};
ghost use Rattle.timetable.specs.Formats.{accepted};
ghost use Rattle.timetable.specs.Machine.{Timetable};
ghost use Rattle.fields.specs.Outcomes.{end_of};
ghost use Rattle.records.specs.Bytes.{zeros};
ghost use Rattle.sheet.specs.Sheets.{encode_sheet};
ghost use Rattle.timetable_entries.specs.Answers.{timetable_outcome, fault_told, sheet_of};
ghost use Rattle.timetable_entries.specs.between.Rest.{rest_of, rest_outcome};

use crate::read;
use base::refusal::{FileError, Refusal};
use network::Network;
use timetable::FileForm;

// The file's first faulty number, the fault, then 7 and 12 entry by entry; else the empty sheet holds the timetable.
fn fill(
    file: &[u8],
    at: usize,
    form: FileForm,
    n: &Network,
    fault: Option<FileError>,
    own: &mut [u8],
) -> Result<usize, FileError>
    requires { own.old ≡ zeros 8192 }
    ensures { (timetable_outcome result ≡ end_of (rest_of form n.now (fault_told fault) file.now at))
        × ((m : Timetable) (next : ℕ) → rest_of form n.now (fault_told fault) file.now at ≡ accepted m next → own.new ≡ encode_sheet m) }
{
    let (refused, next) = read::entries(file, at, form, n, own)?;
    if next < file.len() {
        return Err(FileError {
            refusal: Refusal::EndsOrGoesOn,
            place: next,
        });
    }
    match fault.or(refused) {
        Some(error) => Err(error),
        None => Ok(next),
    }
}

/// The timetable, put into the sheet; answers the place behind the file's last number. 5, the file's first faulty
/// number, the fault of the whole network, then 7 and 12 entry by entry; on each of these the sheet is left as it was.
pub fn read_rest(
    file: &[u8],
    at: usize,
    form: FileForm,
    n: &Network,
    fault: Option<FileError>,
    sheet: &mut [u8],
) -> Result<usize, FileError>
    ensures { (timetable_outcome result ≡ end_of (rest_outcome form n.now (fault_told fault) file.now at sheet.old))
        × (sheet.new ≡ sheet_of (rest_outcome form n.now (fault_told fault) file.now at sheet.old) sheet.old) }
{
    if sheet.len() != 8192 {
        return Err(FileError {
            refusal: Refusal::WrongLength,
            place: 0,
        });
    }
    let mut own = [0; 8192];
    let next = fill(file, at, form, n, fault, &mut own)?;
    sheet.copy_from_slice(&own);
    Ok(next)
}
