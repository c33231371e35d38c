// A visit and its two links.
ghost use Rattle.std.specs.Prelude.{◌≡◌};
ghost use Rattle.railway.specs.Ranges.{run_ok};

use crate::minute::Minute;
use crate::sorts::{Line, Station, Track};

// "a previous station and a line"
#[derive(Clone, Copy, Debug, PartialEq, Eq, Hash)]
pub struct Inward {
    pub station: Station,
    pub line: Line,
}

// "a next station, a line and a running time"
#[derive(Clone, Copy, Debug, PartialEq, Eq, Hash)]
pub struct Outward {
    pub station: Station,
    pub line: Line,
    pub run: u8,
}

// "The in-link is none or a previous station and a line."
#[derive(Clone, Copy, Debug, PartialEq, Eq, Hash)]
pub enum InLink {
    Nothing,
    From(Inward),
}

// "The out-link is none or a next station, a line and a running time."
#[derive(Clone, Copy, Debug, PartialEq, Eq, Hash)]
pub enum OutLink {
    Nothing,
    To(Outward),
}

// "It has a track; arrival and departure, each a time and a status, pending (0) or occurred (1)." Document 02, W6: "A
// visit gains a stop mark, 0 or 1, after its track".
#[derive(Clone, Copy, Debug, PartialEq, Eq, Hash)]
pub struct Visit {
    pub track: Track,
    pub marked: bool,
    pub arrival: Minute,
    pub arrived: bool,
    pub departure: Minute,
    pub departed: bool,
    pub inward: InLink,
    pub outward: OutLink,
}

// "running times 1..240"
pub fn run_valid(run: u8) -> bool
    ensures { result ≡ run_ok run }
{
    base::is_within(1, 240, u16::from(run))
}
