// A file that holds one edit: the bytes that it has in a list of edits, and nothing behind them.
#![tactic(auto, using(edit_files::proofs::EditsParts::file_faulty, edit_files::proofs::EditsParts::file_goes_on, edit_files::proofs::EditsParts::file_read), unfolding(crate::specs::Reading::read_one))]

ghost use Rattle.std.specs.Prelude.{◌≡◌, length};
ghost use Rattle.edit_files.specs.Answers.{whole_outcome};
ghost use Rattle.single_edit.specs.Reading.{read_one};

use base::refusal::FileError;
use edit_files::edit::read_edit;
use fields::field::ended;
use railway::edit::Edit;
use timetable::FileForm;

/// One edit and nothing behind it: "kind and fields".
pub fn one_edit(file: &[u8]) -> Result<Edit, FileError>
    ensures { whole_outcome (length file.now) result ≡ read_one file.now }
{
    let (edit, end) = read_edit(file, 0, FileForm::Newest)?;
    ended(file, end)?;
    Ok(edit)
}
