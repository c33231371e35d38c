// The expected times of one visit, by value. Document 01, "Projection and tally": "An occurred time stands (the first
// arrival too). Otherwise departure is the arrival if the train doesn't stop, else the larger of planned departure and
// arrival + 1". Document 02, W6: "where only the mark makes a stop, projected departure is the larger of planned
// departure and arrival."
ghost use Rattle.std.specs.Prelude.{◌≡◌, ◌+◌, ◌≤◌, max};
ghost use Rattle.std.proofs.Math.IntN.{sub_ℕ};
ghost use Rattle.timetable.specs.Projection.{expected_arrival, expected_departure, row};

use railway::minute::Minute;
use railway::sorts::Station;
use railway::visit::Visit;
use timetable::Row;

#[tactic(auto, unfolding(timetable::specs::Projection::expected_arrival))]
pub fn expected_arrival(v: Visit, a: u32) -> u32
    ensures { (result ≡ expected_arrival v a) × (result ≤ max a 65535) }
{
    if v.arrived { u32::from(v.arrival.0) } else { a }
}

#[tactic(auto, unfolding(timetable::specs::Projection::expected_departure))]
fn expected_departure(v: Visit, a: u32) -> u32
    requires { a ≤ 70000 }
    ensures { (result ≡ expected_departure v a) × (result ≤ max (a + 1) 65535) }
{
    if v.departed {
        return u32::from(v.departure.0);
    }
    if visits::stops_anyway(v) {
        return u32::from(v.departure.0).max(a + 1);
    }
    if v.marked {
        return u32::from(v.departure.0).max(a);
    }
    a
}

// "lateness: expected less standing arrival, negative if early". An expected arrival past what a Minute holds, which no
// good sheet gives, is counted on from the last one.
fn lateness(a: u32, standing: Minute) -> i32
    requires { a ≤ 70000 }
    ensures { result ≡ sub_ℕ a standing.0 }
{
    if a <= 65535 {
        return Minute(a as u16).gap(standing);
    }
    Minute(65535).gap(standing) + (a - 65535) as i32
}

// "Each visit's row is station, expected arrival, expected departure and lateness"
pub(crate) fn row_of(s: Station, v: Visit, a: u32) -> Row
    requires { a ≤ 70000 }
    ensures { (result ≡ row s v a) × (result.arrival ≤ a) × (result.departure ≤ max (a + 1) 65535) }
{
    Row {
        station: s,
        arrival: a,
        departure: expected_departure(v, a),
        lateness: lateness(a, v.arrival),
    }
}
