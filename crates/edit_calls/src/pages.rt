// An edit on the pages of its stations, in a sheet or in a division: refused by them, or done. No sheet is tested here,
// so no other crate reaches it.
ghost use Rattle.std.specs.Prelude.{◌≡◌, OnErr};
ghost use Rattle.page_edits.specs.between.PageEdits.{frames_answer, frames_after};
ghost use Rattle.edit_calls.specs.Answers.{answer_of};

use base::refusal::Refusal;
use network::Network;
use page_edits::Layout;
use railway::edit::Edit;

#[tactic(auto, using(crate::proofs::PairAnswers::refusal_told, crate::proofs::PairAnswers::refusal_left, timetable::proofs::OutputLaws::number_there, crate::proofs::PairAnswers::removed_told, crate::proofs::PairAnswers::changed_left))]
pub(crate) fn edit_pages(b: &mut [u8], layout: Layout, n: &Network, e: Edit) -> Result<u8, Refusal>
    ensures answer { answer_of result ≡ frames_answer layout n.now e b.old }
    ensures after { b.new ≡ frames_after layout n.now e b.old }
    ensures err { OnErr result (b.new ≡ b.old) }
{
    page_edits::refusal_on(b, layout, n, e)?;
    Ok(page_edits::change_on(b, layout, n, e))
}
