// A relation in a file: its station, "kind (1, 2, 3), interval, count of trains, trains (rising, except arriver,
// departer, whose count is 2)". Each number is compared with its namesake in the entry before; a relation by itself has
// none before it.
ghost use Rattle.std.specs.Prelude.{◌≡◌, ◌+◌, ◌<◌, ◌≤◌};
ghost use Rattle.std.specs.Prelude.{if◌then◌else◌};
ghost use Rattle.timetable.specs.Formats.{read};
ghost use Rattle.timetable.specs.EditsFile.{trains_format, most_trains, relation_of, station_relation_entry};
ghost use Rattle.fields.specs.between.Answers.{outcome};
ghost use Rattle.relation_files.specs.between.Answers.{TellsTrains};

use base::refusal::FileError;
use fields::field::narrow;
use fields::floor::{compared, floor_after};
use railway::edit::StationRelation;
use railway::relation::{Pair, Relation, Trains};
use railway::sorts::{Station, Train};

// The least train behind another. `rise` stays a truth value, as `trains_format` of the definitions takes it.
fn least_train(rise: bool, before: u16) -> u32
    ensures { result ≡ (if rise then before + 1 else 1) }
{
    if rise { u32::from(before) + 1 } else { 1 }
}

// Up to four trains, zeros behind them.
fn trains(
    file: &[u8],
    at: usize,
    rise: bool,
    count: usize,
    floor: &[u16],
) -> Result<([u16; 4], usize), FileError>
    requires { count ≤ 4 }
    ensures { TellsTrains result (read (trains_format rise count 0 floor.now) file.now at) }
{
    let mut values = [0; 4];
    let mut place = at;
    let mut before = 0;
    let mut left = floor;
    for i in 0..count {
        let (t, next) = compared(file, place, least_train(rise, before), 9999, left)?;
        values[i] = t;
        left = floor_after(left, t);
        before = t;
        place = next;
    }
    Ok((values, place))
}

// The relation of such trains, zeros where there are fewer. The kind stays the number that the file has: `relation_of`
// of the definitions is total over every number.
#[tactic(auto, using(crate::proofs::ReadingLaws::group_places), unfolding(timetable::specs::EditsFile::relation_of, timetable::specs::EditsFile::pair_of))]
fn relation_from(kind: u16, i: u16, trains: [u16; 4]) -> Relation
    ensures { i < 256 → result ≡ relation_of kind i trains }
{
    let interval = narrow(i);
    let [a, b, c, d] = trains;
    let group = Trains {
        a: Train(a),
        b: Train(b),
        c: Train(c),
        d: Train(d),
    };
    let pair = Pair {
        arriver: Train(a),
        departer: Train(b),
    };
    match kind {
        1 => Relation::Connection(interval, group),
        2 => Relation::Disconnection(interval, group),
        _ => Relation::Dependency(interval, pair),
    }
}

// "a dependency an arriver and a departer": its count is 2. The definition is total over every number.
fn most_trains(kind: u16) -> u16
    ensures { (result ≡ most_trains kind) × (result ≤ 4) }
{
    if kind == 3 { 2 } else { 4 }
}

/// The relation entry at a place, behind the numbers of the entry before, and the place behind it.
pub fn relation_entry(
    file: &[u8],
    at: usize,
    floor: &[u16],
) -> Result<(StationRelation, usize), FileError>
    ensures { outcome result ≡ read (station_relation_entry floor.now) file.now at }
{
    let (s, next) = compared(file, at, 1, 16, floor)?;
    let left = floor_after(floor, s);
    let (kind, next) = compared(file, next, 1, 3, left)?;
    let left = floor_after(left, kind);
    let (interval, next) = compared(file, next, 0, 240, left)?;
    let left = floor_after(left, interval);
    let (count, next) = compared(file, next, 2, most_trains(kind), left)?;
    let left = floor_after(left, count);
    let (trains, next) = trains(file, next, kind != 3, usize::from(count), left)?;
    let relation = StationRelation {
        station: Station(narrow(s)),
        relation: relation_from(kind, interval, trains),
    };
    Ok((relation, next))
}
