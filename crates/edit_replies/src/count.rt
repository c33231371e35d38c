// The tally as four numbers: accepted, refused, added, removed.
ghost use Rattle.std.specs.Prelude.{◌≡◌};
ghost use Rattle.edit_replies.specs.Replies.{tally_of, numbers_of, raise_reply, raise_left};
ghost use Rattle.edit_replies.specs.Reading.{done_reply};

use crate::reading::edit_in;
use base::refusal::Refusal;
use replies::{CallError, Reply};
use timetable::{Answer, Tally};

#[tactic(auto, unfolding(crate::specs::Replies::tally_of))]
fn tally_in(counts: &[u32; 4]) -> Tally
    ensures { result ≡ tally_of counts.now }
{
    let [accepted, refused, added, removed] = *counts;
    Tally {
        accepted,
        refused,
        added,
        removed,
    }
}

#[tactic(auto, unfolding(crate::specs::Replies::numbers_of))]
fn put_tally(counts: &mut [u32; 4], y: Tally)
    ensures { counts.new ≡ numbers_of y }
{
    *counts = [y.accepted, y.refused, y.added, y.removed];
}

// 5, the edit's file, 3.
fn raise_counts(edit: &[u8], a: Answer, counts: &mut [u32; 4]) -> Result<(), CallError>
    ensures { (done_reply result ≡ raise_reply edit.now a.refusal a.removed counts.old) × (counts.new ≡ raise_left edit.now a.refusal a.removed counts.old) }
{
    let y = tally_in(counts);
    if tally::is_overfull(y) {
        return Err(CallError::Refused(Refusal::WrongLength));
    }
    let e = edit_in(edit)?;
    let raised = tally::raised(y, e, a)?;
    put_tally(counts, raised);
    Ok(())
}

// The tally after an edit and its answer, which may have any numbers.
pub fn raise(edit: &[u8], refusal: u8, removed: u8, counts: &mut [u32; 4]) -> Reply
    ensures { (result ≡ raise_reply edit.now refusal removed counts.old) × (counts.new ≡ raise_left edit.now refusal removed counts.old) }
{
    match raise_counts(edit, Answer { refusal, removed }, counts) {
        Ok(()) => replies::plain(0),
        Err(error) => Reply::from(error),
    }
}
