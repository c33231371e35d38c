// Reading a timetable file into a sheet.
ghost use Rattle.std.specs.Prelude.{◌≡◌};
ghost use Rattle.timetable.specs.FileForms.{newest_form};
ghost use Rattle.timetable_entries.specs.Answers.{timetable_outcome};
ghost use Rattle.timetable_files.specs.Calls.{read_answer, read_after};

use base::refusal::{FileError, Refusal};
use network::Network;
use timetable::FileForm;
use timetable_entries::rest;

/// The timetable of a file in a form, put into the sheet; answers the place behind the file. 5, 3 of the network, the
/// file's first faulty number, what else refuses the network, then 7 and 12 entry by entry; on each of these the sheet
/// is left as it was.
pub fn read_timetable_as(
    file: &[u8],
    form: FileForm,
    n: &Network,
    sheet: &mut [u8],
) -> Result<usize, FileError>
    ensures { (timetable_outcome result ≡ read_answer form n.now file.now sheet.old)
        × (sheet.new ≡ read_after form n.now file.now sheet.old) }
{
    if sheet.len() != 8192 {
        return Err(FileError {
            refusal: Refusal::WrongLength,
            place: 0,
        });
    }
    match n.check() {
        Ok(()) => rest::read_rest(file, 0, form, n, None, sheet),
        Err(refusal) => {
            let fault = FileError { refusal, place: 0 };
            match refusal {
                Refusal::OutOfRange => Err(fault),
                _ => rest::read_rest(file, 0, form, n, Some(fault), sheet),
            }
        }
    }
}

/// In the newest form.
pub fn read_timetable(file: &[u8], n: &Network, sheet: &mut [u8]) -> Result<usize, FileError>
    ensures { (timetable_outcome result ≡ read_answer newest_form n.now file.now sheet.old)
        × (sheet.new ≡ read_after newest_form n.now file.now sheet.old) }
{
    read_timetable_as(file, FileForm::Newest, n, sheet)
}
