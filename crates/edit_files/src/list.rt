// Files of edits: "count (0..1000), then kind and fields".
ghost use Rattle.std.specs.Prelude.{◌≡◌, length};
ghost use Rattle.timetable.specs.Formats.{read};
ghost use Rattle.timetable.specs.EditsFile.{edits_on, edits_format, read_edits_as};
ghost use Rattle.fields.specs.Outcomes.{end_of};
ghost use Rattle.fields.specs.between.Answers.{outcome};
ghost use Rattle.edit_files.specs.Answers.{scan_outcome, listed, whole_outcome};

use crate::edit::read_edit;
use base::refusal::FileError;
use fields::field::{ended, field};
use timetable::FileForm;

/// A list of edits in a file: the place of the first, and their count.
#[derive(Clone, Copy, Debug, PartialEq, Eq, Hash)]
pub struct EditList {
    pub first: usize,
    pub count: u16,
}

// The place behind so many edits, each tested.
fn scan_edits(file: &[u8], at: usize, form: FileForm, count: u16) -> Result<usize, FileError>
    ensures { scan_outcome result ≡ end_of (read (edits_on form count) file.now at) }
{
    let mut place = at;
    for i in 0..count {
        let (_, next) = read_edit(file, place, form)?;
        place = next;
    }
    Ok(place)
}

/// The count and the edits from a place of the file on, and the place behind them.
pub fn edits_part(file: &[u8], at: usize, form: FileForm) -> Result<(EditList, usize), FileError>
    ensures { outcome result ≡ listed (read (edits_format form) file.now at) }
{
    let (count, first) = field(file, at, 0, 1000)?;
    let end = scan_edits(file, first, form, count)?;
    Ok((EditList { first, count }, end))
}

/// A file of edits in a form. Nothing stands behind them.
pub fn read_edits(file: &[u8], form: FileForm) -> Result<EditList, FileError>
    ensures { whole_outcome (length file.now) result ≡ listed (read_edits_as form file.now) }
{
    let (list, end) = edits_part(file, 0, form)?;
    ended(file, end)?;
    Ok(list)
}
