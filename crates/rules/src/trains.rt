// Rules 6, 9 and 10: trains on one line, or at the two ends of a link. t leaves by o and has the visit v; u has the
// visit w, and leaves by q.
ghost use Rattle.std.specs.Prelude.{◌≡◌};
ghost use Rattle.timetable.specs.Rules.{ahead, caught, misses};
ghost use Rattle.visits.specs.between.Entries.{entry_of};
ghost use Rattle.rules.specs.between.Parts.{leads, catches, kind_three, is_towards, meets, arrival_by};

use crate::clock;
use network::Network;
use railway::sorts::Station;
use railway::visit::{OutLink, Outward, Visit};
use visits::Entry;

// 6

// t leaves by o: u has an out-link on its line, "an earlier departure and departure + run later than t's departure".
pub fn is_ahead(v: Visit, o: Outward, w: Visit) -> bool
    ensures { result ≡ ahead v o w }
{
    match w.outward {
        OutLink::Nothing => false,
        OutLink::To(q) => {
            q.line == o.line
                && w.departure < v.departure
                && u32::from(v.departure.0) < clock::due(w, q)
        }
    }
}

// "one's departure + run isn't below t's"
pub fn is_caught(v: Visit, o: Outward, w: Visit) -> bool
    ensures { result ≡ caught v o w }
{
    match w.outward {
        OutLink::Nothing => false,
        OutLink::To(q) => clock::due(v, o) <= clock::due(w, q),
    }
}

// Another train that is ahead of t.
pub fn does_lead(t: Entry, o: Outward, u: Entry) -> bool
    ensures { result ≡ leads t.train t.visit o (entry_of u) }
{
    u.train != t.train && is_ahead(t.visit, o, u.visit)
}

// Another train that is ahead of t and is caught.
pub fn does_catch(t: Entry, o: Outward, u: Entry) -> bool
    ensures { result ≡ catches t.train t.visit o (entry_of u) }
{
    does_lead(t, o, u) && is_caught(t.visit, o, u.visit)
}

// 9

// "the far arrival is pending and isn't departure + run"
pub fn does_miss(v: Visit, o: Outward, w: Visit) -> bool
    ensures { result ≡ misses v o w }
{
    !w.arrived && u32::from(w.arrival.0) != clock::due(v, o)
}

// 10

// The line is of kind 3.
pub fn is_both_ways(n: &Network, o: Outward) -> bool
    ensures { result ≡ kind_three n.now o }
{
    n.line_row(o.line).is_some_and(|row| row.kind == 3)
}

// u leaves "on it towards s"
pub fn is_towards(s: Station, o: Outward, q: Outward) -> bool
    ensures { result ≡ is_towards s o q }
{
    q.line == o.line && q.station == s
}

// u, which arrives at a, "neither arrives before t departs nor departs after t's departure + run"
pub fn does_meet(a: u32, v: Visit, o: Outward, w: Visit) -> bool
    ensures { result ≡ meets a v o w }
{
    u32::from(v.departure.0) <= a && u32::from(w.departure.0) <= clock::due(v, o)
}

// "u's arrival is that at s if its link is answered, else departure + run": x is its visit at s, p the station that it
// leaves.
pub fn arrival_by(x: Visit, p: Station, w: Visit, q: Outward) -> u32
    ensures { result ≡ arrival_by x p w q }
{
    if visits::is_from(x, p, q.line) {
        u32::from(x.arrival.0)
    } else {
        clock::due(w, q)
    }
}
