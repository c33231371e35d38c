// The shape of an edit: where it works, and how many visits it adds and removes. One match over the kinds gives it; the
// rest are its parts.
ghost use Rattle.std.specs.Prelude.{◌≡◌};
ghost use Rattle.timetable.specs.Machine.{meaning, added_by};
ghost use Rattle.actions.specs.between.Shapes.{shape_of, shape_touches, touches};
ghost use Rattle.actions.specs.Types.{Local};

use railway::edit::Edit;
use railway::sorts::{Station, Train};

#[derive(Clone, Copy, Debug, PartialEq, Eq, Hash)]
pub enum Shape {
    // At one or two stations: s and p, or s twice; the visits added at s, and removed there.
    Local {
        home: Station,
        away: Station,
        adds: u8,
        removes: u8,
    },
    // At all stations: edit 11, which takes its train out.
    Throughout(Train),
}

// At s and p.
fn at(home: Station, away: Station, adds: u8, removes: u8) -> Shape
    ensures { result ≡ Local home away adds removes }
{
    Shape::Local {
        home,
        away,
        adds,
        removes,
    }
}

#[tactic(auto, unfolding(crate::specs::between::Shapes::shape_of, timetable::specs::Machine::meaning))]
pub fn shape_of(e: Edit) -> Shape
    ensures { result ≡ shape_of (meaning e) }
{
    match e {
        Edit::Place(p) => at(p.station, p.station, 1, 0),
        Edit::Prepend(x) => at(x.plan.station, x.other, 1, 0),
        Edit::Append(x) => at(x.plan.station, x.other, 1, 0),
        Edit::DeleteFirst(d) => at(d.station, d.other, 0, 1),
        Edit::DeleteLast(d) => at(d.station, d.other, 0, 1),
        Edit::Amend(p) => at(p.station, p.station, 0, 0),
        Edit::ReportArrival(r) => at(r.station, r.station, 0, 0),
        Edit::ReportDeparture(r) => at(r.station, r.station, 0, 0),
        Edit::AddRelation(r) => at(r.station, r.station, 0, 0),
        Edit::RemoveRelation(r) => at(r.station, r.station, 0, 0),
        Edit::DeleteTrain(c) => Shape::Throughout(c.train),
    }
}

// How many visits an edit adds.
#[tactic(auto, using(crate::proofs::ShapeLaws::added_at, crate::proofs::ShapeLaws::added_throughout))]
pub fn added_by(e: Edit) -> u8
    ensures { result ≡ added_by (meaning e) }
{
    match shape_of(e) {
        Shape::Local { adds, .. } => adds,
        Shape::Throughout(_) => 0,
    }
}

// The station is s or p of an edit of this shape, or any of edit 11.
#[tactic(auto, unfolding(crate::specs::between::Shapes::shape_touches))]
pub fn is_at(x: Shape, s: Station) -> bool
    ensures { result ≡ shape_touches x s }
{
    match x {
        Shape::Local { home, away, .. } => s == home || s == away,
        Shape::Throughout(_) => true,
    }
}

#[tactic(auto, using(crate::proofs::ShapeLaws::touches_by))]
pub fn touched(e: Edit, s: Station) -> bool
    ensures { result ≡ touches (meaning e) s }
{
    is_at(shape_of(e), s)
}
