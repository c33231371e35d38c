// Which sheets of a division are to be good: those of the areas that an edit names.
#![tactic(auto)]

ghost use Rattle.std.specs.Prelude.{◌≡◌, eqb};
ghost use Rattle.base.specs.Lists.{any};
ghost use Rattle.base.specs.RefusalNumbers.{refusal_number};
ghost use Rattle.network.specs.Networks.{area_of, station_rows};
ghost use Rattle.timetable.specs.Machine.{meaning};
ghost use Rattle.actions.specs.between.Shapes.{shape_of};
ghost use Rattle.named_sheets.specs.between.Named.{reach_of, reaches_area, touches_area, named_refusal};

use actions::shape;
use actions::shape::Shape;
use base::refusal::Refusal;
use network::Network;
use railway::edit::Edit;
use railway::sorts::Area;
use sheet::test;
use sheet::test::Extent;

// Where an edit works: in the areas of its two stations, where they are listed, or at every station.
#[derive(Clone, Copy, Debug, PartialEq, Eq, Hash)]
pub enum Reach {
    Areas(Option<Area>, Option<Area>),
    Everywhere,
}

#[tactic(auto, unfolding(crate::specs::between::Named::reach_of))]
fn reach_of(n: &Network, e: Edit) -> Reach
    ensures { result ≡ reach_of n.now (shape_of (meaning e)) }
{
    match shape::shape_of(e) {
        Shape::Local { home, away, .. } => Reach::Areas(n.area_of(home), n.area_of(away)),
        Shape::Throughout(_) => Reach::Everywhere,
    }
}

// A listed station is in the area.
#[tactic(auto, unfolding(base::specs::Lists::any))]
fn has_station(n: &Network, a: Area) -> bool
    ensures { result ≡ any (λ r. eqb a.0 (area_of n.now r.station)) (station_rows n.now) }
{
    n.station_rows()
        .iter()
        .any(|row| a.0 == n.group_of(row.station))
}

#[tactic(auto, using(crate::proofs::NamedSteps::areas_are), unfolding(crate::specs::between::Named::reaches_area))]
fn is_reached(n: &Network, x: Reach, a: Area) -> bool
    ensures { result ≡ reaches_area n.now x a.0 }
{
    match x {
        Reach::Areas(home, away) => home == Some(a) || away == Some(a),
        Reach::Everywhere => has_station(n, a),
    }
}

// The edit names a station of the area.
#[tactic(auto, using(crate::proofs::NamedSteps::reach_touches))]
pub fn names_area(n: &Network, e: Edit, a: Area) -> bool
    ensures { result ≡ touches_area n.now e a.0 }
{
    is_reached(n, reach_of(n, e), a)
}

// What refuses the network, or else 6 where the sheet of an area that the edit names is not good. The test of the first
// such sheet asks for the network's refusal: where there is none, it is asked for at the end.
pub fn named_refusal(division: &[u8], n: &Network, e: Edit) -> Result<(), Refusal>
    ensures { refusal_number result ≡ named_refusal n.now e division.now }
{
    if division.len() != 49152 {
        return n.check().and(Err(Refusal::BadSheet));
    }
    let x = reach_of(n, e);
    let mut tested = false;
    for i in 0..6u8 {
        let a = Area(i + 1);
        if is_reached(n, x, a) {
            let at = 8192 * usize::from(i);
            test::sheet_refusal(&division[at..at + 8192], n, Extent::Of(a))?;
            tested = true;
        }
    }
    if tested {
        return Ok(());
    }
    n.check()
}
