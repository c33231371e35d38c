// What every crate leans on: refusals; choice, tests over lists and the order of lists of numbers (specs/), laws about
// them (proofs/).
#![tactic(auto)]

ghost use Rattle.std.specs.Prelude.{◌≡◌};
ghost use Rattle.base.specs.Lists.{within};

pub mod refusal; // why a file, a buffer or an edit is turned down

// lo <= x <= hi.
pub fn is_within(lo: u16, hi: u16, x: u16) -> bool
    ensures { result ≡ within lo hi x }
{
    lo <= x && x <= hi
}
