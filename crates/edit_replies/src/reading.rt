// The edit's file: the second of the files that a call is lent.
ghost use Rattle.edit_replies.specs.Reading.{Reads};

use railway::edit::Edit;
use replies::CallError;

pub(crate) fn edit_in(file: &[u8]) -> Result<Edit, CallError>
    ensures { Reads file.now result }
{
    match single_edit::one_edit(file) {
        Ok(edit) => Ok(edit),
        Err(error) => Err(CallError::InFile(2, error)),
    }
}
