// The edits of a file and their answers: a line for each, and the tally.
ghost use Rattle.std.specs.Prelude.{◌≡◌, true, [], ◌∷◌, ◌+◌, ◌*◌, ◌≤◌, length};
ghost use Rattle.timetable.specs.Outputs.{Puts};
ghost use Rattle.timetable.specs.Count.{zero_tally, raise_all};
ghost use Rattle.timetable.specs.Formats.{read};
ghost use Rattle.timetable.specs.FileForms.{newest_form};
ghost use Rattle.timetable.specs.EditsFile.{edit_entry};
ghost use Rattle.edit_calls.specs.between.Taken.{edits_at, can_be_read};
ghost use Rattle.listings.specs.Text.{line};
ghost use Rattle.text.specs.between.Lines.{far};
ghost use Rattle.shift_lines.specs.between.Listing.{answer_at, answers_from, answers_text, next_tally, next_place};

use edit_files::edit;
use edit_files::edit::Cursor;
use text::line;
use timetable::{Answer, FileForm, Tally};

// The place behind the lines, and the tally.
#[derive(Clone, Copy, Debug, PartialEq, Eq, Hash)]
pub struct Progress {
    pub at: usize,
    pub tally: Tally,
}

// The answer to the edit i: two bytes an edit.
fn answer_at(answers: &[u8], i: usize) -> Answer
    requires { (i ≤ 1000) × (2 * i + 2 ≤ length answers.now) }
    ensures { result ≡ answer_at answers.now i }
{
    Answer {
        refusal: answers[2 * i],
        removed: answers[2 * i + 1],
    }
}

// "E: edit, refusal, removed."
fn put_answer(out: &mut [u8], at: usize, i: u32, a: Answer) -> usize
    requires { at ≤ far }
    ensures { Puts at (line 69 (i ∷ a.refusal ∷ a.removed ∷ [])) out.old result out.new 68 }
{
    let refusal = u32::from(a.refusal);
    let removed = u32::from(a.removed);
    line::put_line(out, at, 69, &[i, refusal, removed])
}

// The tally with the edit at the cursor and its answer, and the place of the next edit; one that cannot be read counts
// nothing.
fn count_next(file: &[u8], cursor: Cursor, a: Answer, tally: Tally) -> (Tally, Cursor)
    ensures { (result.0 ≡ next_tally (read (edit_entry newest_form) file.now cursor.at) a tally)
        × (result.1.at ≡ next_place (read (edit_entry newest_form) file.now cursor.at) cursor.at) }
{
    match edit::next_edit(file, cursor, FileForm::Newest) {
        Ok((e, next)) => (raising::raise_own(tally, e, a).unwrap_or(tally), next),
        Err(_) => (tally, cursor),
    }
}

// The lines of `count` edits, which can all be read from the place on, and what they and their answers make of an empty
// tally.
pub(crate) fn put_answers(
    out: &mut [u8],
    file: &[u8],
    first: usize,
    count: u32,
    answers: &[u8],
) -> Progress
    requires { (count ≤ 1000) × (2 * count ≤ length answers.now) × (can_be_read newest_form count file.now first ≡ true) }
    ensures { Puts 0 (answers_text 1 (answers_from count answers.now 0)) out.old result.at out.new (68 * count)
        × (result.tally ≡ raise_all zero_tally (edits_at newest_form count file.now first) (answers_from count answers.now 0)) }
{
    let mut tally = Tally {
        accepted: 0,
        refused: 0,
        added: 0,
        removed: 0,
    };
    let mut at = 0;
    let mut cursor = Cursor { at: first };
    for i in 0..count {
        let a = answer_at(answers, i as usize);
        at = put_answer(out, at, i + 1, a);
        (tally, cursor) = count_next(file, cursor, a, tally);
    }
    Progress {
        at: at,
        tally: tally,
    }
}
