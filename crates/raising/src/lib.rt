// The tally lent by `&mut`: one thin function over the step by value, a rule of the project (docs/DECISIONS.md).
#![tactic(auto)]

ghost use Rattle.std.specs.Prelude.{◌≡◌};
ghost use Rattle.base.specs.RefusalNumbers.{refusal_number};
ghost use Rattle.timetable.specs.Count.{raise_refusal, raise};
ghost use Rattle.std.specs.Result.{result_unwrap_or};

use base::refusal::Refusal;
use railway::edit::Edit;
use tally::raised;
use timetable::{Answer, Tally};

// The lent tally is raised; a refused raise leaves it as it was.
pub fn raise_tally(y: &mut Tally, e: Edit, a: Answer) -> Result<(), Refusal>
    ensures { (refusal_number result ≡ raise_refusal y.old a) × (y.new ≡ raise y.old e a) }
{
    *y = raised(*y, e, a)?;
    Ok(())
}

// The same for a caller that has the tally by value: it is lent for the raise and handed back, so that the caller lends
// nothing itself.
pub fn raise_own(y: Tally, e: Edit, a: Answer) -> Result<Tally, Refusal>
    ensures { (refusal_number result ≡ raise_refusal y a) × (result_unwrap_or result y ≡ raise y e a) }
{
    let mut tally = y;
    raise_tally(&mut tally, e, a)?;
    Ok(tally)
}
