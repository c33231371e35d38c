// Which stations lines join.
ghost use Rattle.std.specs.Prelude.{◌≡◌};
ghost use Rattle.timetable.specs.Recheck.{row_joins, joined};

use network::{LineRow, Network};
use railway::sorts::Station;

// The line's ends are the two, either way.
#[tactic(auto, unfolding(timetable::specs::Recheck::row_joins))]
fn row_joins(r: LineRow, a: Station, b: Station) -> bool
    ensures { result ≡ row_joins r a b }
{
    (r.first == a && r.second == b) || (r.second == a && r.first == b)
}

#[tactic(auto, unfolding(timetable::specs::Recheck::joined, base::specs::Lists::any))]
pub(crate) fn are_joined(n: &Network, a: Station, b: Station) -> bool
    ensures { result ≡ joined n.now a b }
{
    n.line_rows().iter().any(|row| row_joins(*row, a, b))
}
