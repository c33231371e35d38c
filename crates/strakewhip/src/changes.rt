// Edits on a division. Refusals: 5, then the network's file, then the edits', then those of the call.
ghost use Rattle.std.specs.Prelude.{◌≡◌};
ghost use Rattle.timetable.specs.declared.FileForm.{FileForm};
ghost use Rattle.timetable.specs.FileForms.{newest_form};
ghost use Rattle.edit_calls.specs.Lists as lists;
ghost use Rattle.replies.specs.Replies.{of_reply};
ghost use Rattle.strakewhip.specs.Calls.{edit_reply, edit_left, sheet_edit_reply, sheet_edit_left, run_reply, run_left, answers_left};

use crate::entering::{entered, is_division, is_sheet};
use edit_calls::RunError;
use edit_replies::changes;
use replies::{CallError, Reply};
use timetable::FileForm;

// One edit, by the bytes that it has in a file.
#[unsafe(no_mangle)]
pub extern "C" fn strakewhip_edit(network: &[u8], edit: &[u8], division: &mut [u8]) -> Reply
    ensures { (result ≡ edit_reply network.now edit.now division.old) × (division.new ≡ edit_left network.now edit.now division.old) }
{
    match entered(is_division(division), network) {
        Ok(n) => changes::one_on_division(&n, edit, division),
        Err(reply) => reply,
    }
}

// The same on one sheet of all stations.
#[unsafe(no_mangle)]
pub extern "C" fn strakewhip_edit_sheet(network: &[u8], edit: &[u8], sheet: &mut [u8]) -> Reply
    ensures { (result ≡ sheet_edit_reply network.now edit.now sheet.old) × (sheet.new ≡ sheet_edit_left network.now edit.now sheet.old) }
{
    match entered(is_sheet(sheet), network) {
        Ok(n) => changes::one_on_sheet(&n, edit, sheet),
        Err(reply) => reply,
    }
}

#[tactic(auto, unfolding(edit_calls::specs::Lists::reply, replies::specs::Replies::opened))]
fn of_run(r: Result<usize, RunError>) -> Reply
    ensures { result ≡ of_reply (lists.reply r) }
{
    match r {
        Ok(length) => replies::sized(0, length),
        Err(RunError::Refused(e)) => Reply::from(CallError::InFile(2, e)),
        Err(RunError::TooShort(needed)) => Reply::from(CallError::TooShort(needed)),
    }
}

// The edits of a file in a form, one after another: two bytes each into `answers`, refusal and removed.
fn run_as(
    form: FileForm,
    network: &[u8],
    edits: &[u8],
    division: &mut [u8],
    answers: &mut [u8],
) -> Reply
    ensures { (result ≡ run_reply form network.now edits.now division.old answers.old) × (division.new ≡ run_left form network.now edits.now division.old answers.old) × (answers.new ≡ answers_left form network.now edits.now division.old answers.old) }
{
    match entered(is_division(division), network) {
        Ok(n) => of_run(edit_calls::run_list(division, &n, edits, form, answers)),
        Err(reply) => reply,
    }
}

#[unsafe(no_mangle)]
pub extern "C" fn strakewhip_run(
    network: &[u8],
    edits: &[u8],
    division: &mut [u8],
    answers: &mut [u8],
) -> Reply
    ensures { (result ≡ run_reply newest_form network.now edits.now division.old answers.old) × (division.new ≡ run_left newest_form network.now edits.now division.old answers.old) × (answers.new ≡ answers_left newest_form network.now edits.now division.old answers.old) }
{
    run_as(FileForm::Newest, network, edits, division, answers)
}

// A file of the earlier form: its edits carry mark 0, its reports minute 2879.
#[unsafe(no_mangle)]
pub extern "C" fn strakewhip_run_early(
    network: &[u8],
    edits: &[u8],
    division: &mut [u8],
    answers: &mut [u8],
) -> Reply
    ensures { (result ≡ run_reply FileForm.Earlier network.now edits.now division.old answers.old) × (division.new ≡ run_left FileForm.Earlier network.now edits.now division.old answers.old) × (answers.new ≡ answers_left FileForm.Earlier network.now edits.now division.old answers.old) }
{
    run_as(FileForm::Earlier, network, edits, division, answers)
}
