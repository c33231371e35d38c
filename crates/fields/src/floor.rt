// The order of entries. A number is compared with its namesake in the entry before, as long as all earlier numbers are
// equal.
ghost use Rattle.std.specs.Prelude.{◌≡◌};
ghost use Rattle.timetable.specs.Formats.{field_at, least, floor_after};
ghost use Rattle.fields.specs.between.Answers.{outcome};

use crate::field::field;
use base::refusal::FileError;

// The least value that the next number may have.
#[tactic(auto, using(crate::proofs::FloorLaws::least_none, crate::proofs::FloorLaws::least_last, crate::proofs::FloorLaws::least_more))]
fn least(floor: &[u16], lo: u32) -> u32
    ensures { result ≡ least lo floor.now }
{
    match floor {
        [] => lo,
        [last] => lo.max(u32::from(*last) + 1),
        [first, ..] => lo.max(u32::from(*first)),
    }
}

/// What is left to compare with behind the number n.
#[tactic(auto, using(crate::proofs::FloorLaws::after_none, crate::proofs::FloorLaws::after_equal, crate::proofs::FloorLaws::after_other))]
pub fn floor_after(floor: &[u16], n: u16) -> &[u16]
    ensures { result.now ≡ floor_after n floor.now }
{
    match floor {
        [] => &[],
        [first, rest @ ..] => { if *first == n { rest } else { &[] } }
    }
}

/// The number of lo..hi at a place that is not below the floor, and the place behind it.
pub fn compared(
    file: &[u8],
    at: usize,
    lo: u32,
    hi: u16,
    floor: &[u16],
) -> Result<(u16, usize), FileError>
    ensures { outcome result ≡ field_at (least lo floor.now) hi file.now at }
{
    field(file, at, least(floor, lo), hi)
}
