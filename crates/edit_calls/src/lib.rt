// The central machine on bytes: an edit on a sheet, an edit on a division (`calls`), and the edits of a file, run one
// after another. For those the sheets of the division are tested once: an edit on a good division leaves it good, so
// each edit of the list costs only the pages that it touches. Where they are not all good, each edit tests those that
// it names, as the single call does.
#![tactic(auto)]

ghost use Rattle.std.specs.Prelude.{◌≡◌, true, ◌+◌, ◌*◌, ◌≤◌, length, OnErr};
ghost use Rattle.timetable.specs.Outputs.{put};
ghost use Rattle.edit_calls.specs.Answers.{answer_of};
ghost use Rattle.edit_calls.specs.Lists.{known_good, answer_numbers, EditsKnown, Runs, RunsFile};
ghost use Rattle.edit_calls.specs.between.Taken.{edits_at, CanRun};

use base::refusal::{FileError, Refusal};
use edit_files::edit::{Cursor, next_edit};
use edit_files::list::read_edits;
use network::Network;
use railway::edit::Edit;
use sheet::test;
use timetable::{Answer, FileForm};

pub mod calls; // an edit on a sheet, an edit on a division
mod pages; // an edit on pages that are not tested
mod untested; // an edit on a division that is known to be good

/// Why a list is not run.
#[derive(Clone, Copy, Debug, PartialEq, Eq, Hash)]
pub enum RunError {
    /// 5 with place 0, or the file's refusal with its place.
    Refused(FileError),
    /// 13, with the needed length.
    TooShort(usize),
}

impl From<FileError> for RunError {
    ghost use Rattle.edit_calls.specs.declared.RunError.{RunError};

    ghost from_gives = { λ e r. r ≡ RunError.Refused e };

    fn from(error: FileError) -> RunError {
        RunError::Refused(error)
    }
}

// The network and all six sheets are good.
fn all_good(division: &[u8], n: &Network) -> bool
    ensures { result ≡ known_good n.now division.now }
{
    match n.check() {
        Ok(()) => test::good_division(division, n),
        Err(_) => false,
    }
}

// An edit as its single call; `tested` where the division is known to be good. It stays a truth value: it is the answer of
// `all_good`, and the `requires` says what it tells.
fn edit_once(division: &mut [u8], n: &Network, e: Edit, tested: bool) -> Result<u8, Refusal>
    requires { tested ≡ true → known_good n.now division.old ≡ true }
    ensures { EditsKnown n.now e tested division.old (answer_of result) division.new }
{
    if tested {
        return untested::edit_untested(division, n, e);
    }
    calls::edit_division(division, n, e)
}

// An edit's answer as its two numbers.
fn answer_from(ended: Result<u8, Refusal>) -> Answer
    ensures { result ≡ answer_of ended }
{
    match ended {
        Ok(removed) => Answer {
            refusal: 0,
            removed,
        },
        Err(refusal) => Answer {
            refusal: u8::from(refusal),
            removed: 0,
        },
    }
}

// The two numbers of the answer to the edit at i.
#[tactic(auto, unfolding(timetable::specs::Outputs::put, crate::specs::Lists::answer_numbers))]
fn put_answer(out: &mut [u8], i: usize, a: Answer)
    requires { (2 * i + 2 ≤ length out.old) × (i ≤ 1000) }
    ensures { out.new ≡ put (2 * i) (answer_numbers a) out.old }
{
    out[2 * i] = a.refusal;
    out[2 * i + 1] = a.removed;
}

// `count` edits from the place on, which can all be read; there is room for their answers.
fn run_edits(
    division: &mut [u8],
    n: &Network,
    file: &[u8],
    at: usize,
    form: FileForm,
    count: usize,
    tested: bool,
    out: &mut [u8],
)
    requires { (CanRun form count file.now at out.old) × (tested ≡ true → known_good n.now division.old ≡ true) }
    ensures { Runs n.now (edits_at form count file.now at) division.old out.old division.new out.new }
{
    let mut cursor = Cursor { at };
    for i in 0..count {
        match next_edit(file, cursor, form) {
            Ok((e, next)) => {
                let a = edit_once(division, n, e, tested);
                put_answer(out, i, answer_from(a));
                cursor = next;
            }
            Err(_) => return,
        }
    }
}

/// The edits of a file in a form. 5 for the division's length, the file's refusal, 13; then each edit answers as its
/// single call does on what the one before left: two numbers an edit, and how many are written.
pub fn run_list(
    division: &mut [u8],
    n: &Network,
    file: &[u8],
    form: FileForm,
    out: &mut [u8],
) -> Result<usize, RunError>
    ensures told { RunsFile form n.now file.now division.old out.old result division.new out.new }
    ensures err { OnErr result ((division.new ≡ division.old) × (out.new ≡ out.old)) }
{
    if division.len() != 49152 {
        return Err(RunError::Refused(FileError {
            refusal: Refusal::WrongLength,
            place: 0,
        }));
    }
    let list = read_edits(file, form)?;
    let count = usize::from(list.count);
    let needed = 2 * count;
    if out.len() < needed {
        return Err(RunError::TooShort(needed));
    }
    let tested = all_good(division, n);
    run_edits(division, n, file, list.first, form, count, tested, out);
    Ok(needed)
}
