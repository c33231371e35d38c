// The numbers of a visit, as they stand in a file: "s, t, track, arrival, status, departure, status, in-link, out-link
// (fields as listed, or a single 0 for none)"; a stop mark "after its track".
ghost use Rattle.std.specs.Prelude.{◌≡◌, [], ◌∷◌};
ghost use Rattle.timetable.specs.FileForms.{newest_form};
ghost use Rattle.timetable.specs.TimetableFile.{visit_numbers};
ghost use Rattle.fields.specs.between.Answers.{row_of};

use fields::put::Numbers;
use railway::sorts::{Station, Train};
use railway::visit::{InLink, Inward, OutLink, Outward, Visit};

// The station and the line of an in-link.
fn in_fields(i: Inward) -> [u16; 2]
    ensures { result ≡ i.station.0 ∷ i.line.0 ∷ [] }
{
    [u16::from(i.station.0), u16::from(i.line.0)]
}

// The station, the line and the running time of an out-link.
fn out_fields(o: Outward) -> [u16; 3]
    ensures { result ≡ o.station.0 ∷ o.line.0 ∷ o.run ∷ [] }
{
    [
        u16::from(o.station.0),
        u16::from(o.line.0),
        u16::from(o.run),
    ]
}

pub fn visit_numbers(station: Station, train: Train, v: Visit) -> Numbers
    ensures { result ≡ row_of (visit_numbers newest_form (record { station = station; train = train; visit = v })) }
{
    let s = u16::from(station.0);
    let t = train.0;
    let k = u16::from(v.track.0);
    let mark = u16::from(v.marked);
    let a = v.arrival.0;
    let arrived = u16::from(v.arrived);
    let d = v.departure.0;
    let departed = u16::from(v.departed);
    let (count, links) = match (v.inward, v.outward) {
        (InLink::Nothing, OutLink::Nothing) => (10, [0; 5]),
        (InLink::Nothing, OutLink::To(o)) => {
            let [q, m, r] = out_fields(o);
            (12, [0, q, m, r, 0])
        }
        (InLink::From(i), OutLink::Nothing) => {
            let [p, l] = in_fields(i);
            (11, [p, l, 0, 0, 0])
        }
        (InLink::From(i), OutLink::To(o)) => {
            let [p, l] = in_fields(i);
            let [q, m, r] = out_fields(o);
            (13, [p, l, q, m, r])
        }
    };
    let [p, l, q, m, r] = links;
    Numbers {
        count,
        values: [s, t, k, mark, a, arrived, d, departed, p, l, q, m, r],
    }
}
