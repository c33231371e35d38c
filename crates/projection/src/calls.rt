// The call: the rows of a train from one visit on, as numbers into a lent buffer. Document 01, "Projection and tally":
// "It refuses 5, 3, 4, 7, 6, 9, 13.", and 14 straight after 3.
ghost use Rattle.std.specs.Prelude.{◌≡◌, length};
ghost use Rattle.base.specs.RefusalNumbers.{refusal_number};
ghost use Rattle.timetable.specs.Outputs.{reply_of, output, output_after};
ghost use Rattle.projection.specs.Calls.{values_fit, early_refusal, projected, project_answer, project_after};

use crate::journey;
use base::refusal::{OutputError, Refusal};
use network::Network;
use railway::minute::Minute;
use railway::sorts::{Station, Train};
use sheet::test;
use sheet::test::Extent;

#[tactic(auto, unfolding(crate::specs::Calls::values_fit))]
fn are_valid(s: Station, t: Train, a: Minute) -> bool
    ensures { result ≡ values_fit s t a }
{
    s.valid() && t.valid() && a.valid()
}

// 3, 14, 4 or 7: what refuses before the sheet is looked at.
#[tactic(auto, using(crate::proofs::ProjectionCall::early_values, crate::proofs::ProjectionCall::early_network, crate::proofs::ProjectionCall::early_unknown, crate::proofs::ProjectionCall::early_none))]
fn early_refusal(n: &Network, s: Station, t: Train, a: Minute) -> Result<(), Refusal>
    ensures { refusal_number result ≡ early_refusal n.now s t a }
{
    if !are_valid(s, t, a) {
        return Err(Refusal::OutOfRange);
    }
    n.check()?;
    if n.listed(s) {
        return Ok(());
    }
    Err(Refusal::NotKnown)
}

// The rows: counted first, then written where there is room.
fn write_rows(
    sheet: &[u8; 8192],
    s: Station,
    t: Train,
    a: Minute,
    out: &mut [i32],
) -> Result<usize, OutputError>
    ensures { (reply_of result ≡ output 0 (projected s t a sheet.now) out.old)
        × (out.new ≡ output_after 0 (projected s t a sheet.now) out.old) }
{
    let first = u32::from(a.0);
    // What does not fit is dropped, so a pass over one spare number counts.
    let mut spare = [0i32; 1];
    let needed = journey::arrive(sheet, t, s, first, 16, &mut spare, 0);
    if out.len() < needed {
        return Err(OutputError::TooShort(needed));
    }
    journey::arrive(sheet, t, s, first, 16, out, 0);
    Ok(needed)
}

/// From s, t and an expected arrival a: how many numbers were written.
pub fn project(
    sheet: &[u8],
    n: &Network,
    s: Station,
    t: Train,
    a: Minute,
    out: &mut [i32],
) -> Result<usize, OutputError>
    ensures { (reply_of result ≡ project_answer n.now s t a sheet.now out.old)
        × (out.new ≡ project_after n.now s t a sheet.now out.old) }
{
    let Some(sheet) = sheet.as_array() else {
        return Err(OutputError::Refused(Refusal::WrongLength));
    };
    early_refusal(n, s, t, a)?;
    if !test::good_sheet(sheet, n, Extent::Whole) {
        return Err(OutputError::Refused(Refusal::BadSheet));
    }
    if journey::visit_at(sheet, s, t).is_none() {
        return Err(OutputError::Refused(Refusal::Missing));
    }
    write_rows(sheet, s, t, a, out)
}
