// The tally of a shift. Document 01, "Projection and tally": "The shift has one small tally record which each edit
// raises: accepted, refused, added, removed, the last two counting visits. Raising it is a call of its own on the edit
// and its answer".
#![tactic(auto)]

ghost use Rattle.std.specs.Prelude.{◌≡◌};
ghost use Rattle.base.specs.RefusalNumbers.{refusal_number};
ghost use Rattle.timetable.specs.Count.{overfull, unlikely, raise_refusal, raise};
ghost use Rattle.std.specs.Result.{result_unwrap_or};

use actions::shape;
use base::refusal::Refusal;
use railway::edit::Edit;
use timetable::{Answer, Tally};

// "a tally field above 1,000,000"
const MOST: u32 = 1000000;

// A field is above the most.
#[tactic(auto, unfolding(timetable::specs::Count::overfull))]
pub fn is_overfull(y: Tally) -> bool
    ensures { result ≡ overfull y }
{
    (MOST < y.accepted || MOST < y.refused) || (MOST < y.added || MOST < y.removed)
}

// "3 for over 16 removed, or any by a refusal"
#[tactic(auto, unfolding(timetable::specs::Count::unlikely))]
pub fn is_unlikely(a: Answer) -> bool
    ensures { result ≡ unlikely a }
{
    16 < a.removed || (a.refusal != 0 && 0 < a.removed)
}

// The tally after an edit and its answer; it stays as it was where the raise is refused, and after an answer of 5. The
// answer is two numbers and no Result: C brings any numbers, and `unlikely` speaks of each.
pub fn raised(y: Tally, e: Edit, a: Answer) -> Result<Tally, Refusal>
    ensures { (refusal_number result ≡ raise_refusal y a) × (result_unwrap_or result y ≡ raise y e a) }
{
    if is_overfull(y) {
        return Err(Refusal::WrongLength);
    }
    if is_unlikely(a) {
        return Err(Refusal::OutOfRange);
    }
    match a.refusal {
        0 => Ok(Tally {
            accepted: y.accepted + 1,
            added: y.added + u32::from(shape::added_by(e)),
            removed: y.removed + u32::from(a.removed),
            ..y
        }),
        5 => Ok(y),
        _ => Ok(Tally {
            refused: y.refused + 1,
            ..y
        }),
    }
}
