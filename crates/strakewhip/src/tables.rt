// Timetable files read into a sheet, and written from one.
ghost use Rattle.std.specs.Prelude.{◌≡◌};
ghost use Rattle.timetable.specs.declared.FileForm.{FileForm};
ghost use Rattle.timetable.specs.FileForms.{newest_form};
ghost use Rattle.timetable_entries.specs.Answers.{timetable_outcome};
ghost use Rattle.replies.specs.Replies.{of_outcome};
ghost use Rattle.strakewhip.specs.Calls.{read_reply, read_left, write_reply, write_left};

use crate::entering::{entered, is_sheet};
use base::refusal::FileError;
use replies::{CallError, Reply};
use timetable::FileForm;
use timetable_files::calls;
use timetable_writing::calls as writing;

#[tactic(auto, unfolding(replies::specs::Replies::opened))]
fn of_read(r: Result<usize, FileError>) -> Reply
    ensures { result ≡ of_outcome 2 (timetable_outcome r) }
{
    match r {
        Ok(length) => replies::sized(0, length),
        Err(e) => Reply::from(CallError::InFile(2, e)),
    }
}

// A timetable file in a form.
fn read_as(form: FileForm, network: &[u8], timetable: &[u8], sheet: &mut [u8]) -> Reply
    ensures { (result ≡ read_reply form network.now timetable.now sheet.old) × (sheet.new ≡ read_left form network.now timetable.now sheet.old) }
{
    match entered(is_sheet(sheet), network) {
        Ok(n) => of_read(calls::read_timetable_as(timetable, form, &n, sheet)),
        Err(reply) => reply,
    }
}

#[unsafe(no_mangle)]
pub extern "C" fn strakewhip_read(network: &[u8], timetable: &[u8], sheet: &mut [u8]) -> Reply
    ensures { (result ≡ read_reply newest_form network.now timetable.now sheet.old) × (sheet.new ≡ read_left newest_form network.now timetable.now sheet.old) }
{
    read_as(FileForm::Newest, network, timetable, sheet)
}

// A file of the earlier form: "their visits get mark 0".
#[unsafe(no_mangle)]
pub extern "C" fn strakewhip_read_early(network: &[u8], timetable: &[u8], sheet: &mut [u8]) -> Reply
    ensures { (result ≡ read_reply FileForm.Earlier network.now timetable.now sheet.old) × (sheet.new ≡ read_left FileForm.Earlier network.now timetable.now sheet.old) }
{
    read_as(FileForm::Earlier, network, timetable, sheet)
}

#[unsafe(no_mangle)]
pub extern "C" fn strakewhip_write(network: &[u8], sheet: &[u8], out: &mut [u8]) -> Reply
    ensures { (result ≡ write_reply network.now sheet.now out.old) × (out.new ≡ write_left network.now sheet.now out.old) }
{
    match entered(is_sheet(sheet), network) {
        Ok(n) => replies::of_result(writing::write_timetable(sheet, &n, out)),
        Err(reply) => reply,
    }
}
