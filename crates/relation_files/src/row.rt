// The numbers of a relation, as they stand in a file, behind another number or alone.
ghost use Rattle.std.specs.Prelude.{◌≡◌, List, [], ◌∷◌, ◌++◌, map, ℕ, ◌<◌, length};
ghost use Rattle.base.specs.Lists.{keep};
ghost use Rattle.railway.specs.Relations.{present};
ghost use Rattle.timetable.specs.EditsFile.{group_numbers, station_relation_numbers};
ghost use Rattle.fields.specs.between.Answers.{row_of};

use fields::put::Numbers;
use railway::edit::StationRelation;
use railway::relation::{Relation, Trains};
use railway::sorts::{Station, Train};

// One train more, if the place holds one.
#[tactic(auto, unfolding(base::specs::Lists::keep, railway::specs::Relations::present))]
fn with_train(row: Numbers, t: Train) -> Numbers
    ensures { (ns : List ℕ) → row ≡ row_of ns → length ns < 13 → result ≡ row_of (ns ++ map (λ u. u.0) (keep present (t ∷ []))) }
{
    if t.0 > 0 { row.with(t.0) } else { row }
}

// A connection or a disconnection, by its kind.
fn group_fields(lead: u16, s: Station, kind: u16, i: u8, ts: Trains) -> Numbers
    ensures { result ≡ row_of (lead ∷ s.0 ∷ group_numbers kind i ts) }
{
    let s = u16::from(s.0);
    let i = u16::from(i);
    let count = u16::from(ts.count());
    let head = Numbers::new(&[lead, s, kind, i, count]);
    let one = with_train(head, ts.a);
    let two = with_train(one, ts.b);
    let three = with_train(two, ts.c);
    with_train(three, ts.d)
}

/// The numbers of a relation behind the number `lead`.
pub fn led_numbers(lead: u16, x: StationRelation) -> Numbers
    ensures { result ≡ row_of (lead ∷ station_relation_numbers x) }
{
    match x.relation {
        Relation::Connection(i, ts) => group_fields(lead, x.station, 1, i, ts),
        Relation::Disconnection(i, ts) => group_fields(lead, x.station, 2, i, ts),
        Relation::Dependency(i, pair) => {
            let s = u16::from(x.station.0);
            let i = u16::from(i);
            Numbers::new(&[lead, s, 3, i, 2, pair.arriver.0, pair.departer.0])
        }
    }
}

/// The numbers of a relation alone.
pub fn relation_numbers(x: StationRelation) -> Numbers
    ensures { result ≡ row_of (station_relation_numbers x) }
{
    let led = led_numbers(0, x);
    Numbers::new(&led.in_use()[1..])
}
