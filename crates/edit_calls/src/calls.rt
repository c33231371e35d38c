// The calls of the central machine: an edit on a sheet, an edit on a division; how many visits it removes. Refusals in
// the documents' order: 5, 3, 15, 14, 4, 7, 6, then 8 to 12. An edit that nothing refuses under a good network has its
// network's refusals from the test of its sheets, so that the network is tested once.
ghost use Rattle.std.specs.Prelude.{◌≡◌, MatchResult, OnErr};
ghost use Rattle.base.specs.RefusalNumbers.{number_of, refusal_number};
ghost use Rattle.timetable.specs.Machine.{edit_refusal};
ghost use Rattle.timetable.specs.Refusals.{early};
ghost use Rattle.actions.specs.Early.{unknown_refusal, early_refusal};
ghost use Rattle.machine.specs.Calls.{sheet_answer, sheet_after, division_answer, division_after};
ghost use Rattle.edit_calls.specs.Answers.{answer_of};
ghost use Rattle.edit_calls.specs.between.Layouts.{call_answer, call_after, sheets_refusal};

use crate::pages;
use actions::early;
use base::refusal::Refusal;
use network::Network;
use page_edits::Layout;
use railway::edit::Edit;
use sheet::test;
use sheet::test::Extent;

// What refuses the edit before a sheet is looked at; nothing where only its network may refuse it.
fn test_early(n: &Network, e: Edit) -> Result<(), Refusal>
    ensures { MatchResult result (λ x. early (edit_refusal e) 0 (unknown_refusal n.now e) ≡ 0) (λ r. number_of r ≡ early_refusal n.now e) }
{
    match early::refusal_under(n, Ok(()), e) {
        Ok(()) => Ok(()),
        Err(_) => early::early_refusal(n, e),
    }
}

// What refuses the network, or else 6 where a sheet that the edit works on is not good.
#[tactic(auto, unfolding(crate::specs::between::Layouts::sheets_refusal))]
fn test_sheets(b: &[u8], layout: Layout, n: &Network, e: Edit) -> Result<(), Refusal>
    ensures { refusal_number result ≡ sheets_refusal layout n.now e b.now }
{
    match layout {
        Layout::Sheet => test::sheet_refusal(b, n, Extent::Whole),
        Layout::Division => named_sheets::named_refusal(b, n, e),
    }
}

fn edit(b: &mut [u8], layout: Layout, n: &Network, e: Edit) -> Result<u8, Refusal>
    ensures answer { answer_of result ≡ call_answer layout n.now e b.old }
    ensures after { b.new ≡ call_after layout n.now e b.old }
    ensures err { OnErr result (b.new ≡ b.old) }
{
    if b.len() != layout.bytes() {
        return Err(Refusal::WrongLength);
    }
    test_early(n, e)?;
    test_sheets(b, layout, n, e)?;
    pages::edit_pages(b, layout, n, e)
}

pub fn edit_sheet(sheet: &mut [u8], n: &Network, e: Edit) -> Result<u8, Refusal>
    ensures answer { answer_of result ≡ sheet_answer n.now e sheet.old }
    ensures after { sheet.new ≡ sheet_after n.now e sheet.old }
    ensures err { OnErr result (sheet.new ≡ sheet.old) }
{
    edit(sheet, Layout::Sheet, n, e)
}

pub fn edit_division(division: &mut [u8], n: &Network, e: Edit) -> Result<u8, Refusal>
    ensures answer { answer_of result ≡ division_answer n.now e division.old }
    ensures after { division.new ≡ division_after n.now e division.old }
    ensures err { OnErr result (division.new ≡ division.old) }
{
    edit(division, Layout::Division, n, e)
}
