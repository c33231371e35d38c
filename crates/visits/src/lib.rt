// Visits by value: their links, whether they stop, and visits with another link or time, as the definitions of
// timetable/specs/Visits.antt say.
#![tactic(auto, unfolding(timetable::specs::Visits::opened, crate::specs::between::Changes::opened))]

ghost use Rattle.std.specs.Prelude.{◌≡◌};
ghost use Rattle.timetable.specs.Visits.{lacks_in, lacks_out, comes_from, leaves_to, stops_anyway, stops, with_in, with_out, planned, amended, arrived_at, departed_at};
ghost use Rattle.visits.specs.between.Kept.{keeps_arrival, alters_departure};
ghost use Rattle.visits.specs.between.Changes.{change_by};
ghost use Rattle.timetable.specs.Visits.{from, onward, first_stands, last_stands, alters};

use railway::edit::Plan;
use railway::minute::Minute;
use railway::sorts::{Line, Station, Train};
use railway::visit::{InLink, Inward, OutLink, Outward, Visit};

// A train's visit. "A visit belongs to a station and a train."
#[derive(Clone, Copy, Debug, PartialEq, Eq, Hash)]
pub struct Entry {
    pub train: Train,
    pub visit: Visit,
}

// Links.

pub fn has_no_in(v: Visit) -> bool
    ensures { result ≡ lacks_in v }
{
    matches!(v.inward, InLink::Nothing)
}

pub fn has_no_out(v: Visit) -> bool
    ensures { result ≡ lacks_out v }
{
    matches!(v.outward, OutLink::Nothing)
}

// The in-link is this station and line.
pub fn is_from(v: Visit, s: Station, l: Line) -> bool
    ensures { result ≡ comes_from s l v }
{
    match v.inward {
        InLink::Nothing => false,
        InLink::From(i) => i.station == s && i.line == l,
    }
}

// The out-link is this station and line, whatever the running time.
pub fn is_to(v: Visit, s: Station, l: Line) -> bool
    ensures { result ≡ leaves_to s l v }
{
    match v.outward {
        OutLink::Nothing => false,
        OutLink::To(o) => o.station == s && o.line == l,
    }
}

// "A visit stops if it departs later than it arrives or lacks a link."
pub fn stops_anyway(v: Visit) -> bool
    ensures { result ≡ stops_anyway v }
{
    v.arrival < v.departure || has_no_in(v) || has_no_out(v)
}

// "A marked visit stops even if the old condition doesn't hold."
pub fn does_stop(v: Visit) -> bool
    ensures { result ≡ stops v }
{
    v.marked || stops_anyway(v)
}

pub fn link_from(s: Station, l: Line) -> InLink
    ensures { result ≡ from s l }
{
    InLink::From(Inward {
        station: s,
        line: l,
    })
}

pub fn link_to(s: Station, l: Line, run: u8) -> OutLink
    ensures { result ≡ onward s l run }
{
    OutLink::To(Outward {
        station: s,
        line: l,
        run,
    })
}

// Visits with another link or time.

pub fn linked_in(link: InLink, v: Visit) -> Visit
    ensures { result ≡ with_in link v }
{
    Visit { inward: link, ..v }
}

pub fn linked_out(link: OutLink, v: Visit) -> Visit
    ensures { result ≡ with_out link v }
{
    Visit { outward: link, ..v }
}

// Edit 1: both times pending, no links.
pub fn plan_visit(p: Plan) -> Visit
    ensures { result ≡ planned p }
{
    Visit {
        track: p.track,
        marked: p.marked,
        arrival: p.arrival,
        arrived: false,
        departure: p.departure,
        departed: false,
        inward: InLink::Nothing,
        outward: OutLink::Nothing,
    }
}

// Edit 6: new track, mark and times, statuses and links kept.
pub fn amend_visit(p: Plan, v: Visit) -> Visit
    ensures { result ≡ amended p v }
{
    Visit {
        track: p.track,
        marked: p.marked,
        arrival: p.arrival,
        departure: p.departure,
        ..v
    }
}

// Edits 7 and 8: time and occurred anew.
pub fn arrive(time: Minute, v: Visit) -> Visit
    ensures { result ≡ arrived_at time v }
{
    Visit {
        arrival: time,
        arrived: true,
        ..v
    }
}

pub fn depart(time: Minute, v: Visit) -> Visit
    ensures { result ≡ departed_at time v }
{
    Visit {
        departure: time,
        departed: true,
        ..v
    }
}

// One change of a visit that stands, by edits 2 to 8.
#[derive(Clone, Copy, Debug, PartialEq, Eq, Hash)]
pub enum Change {
    In(InLink),
    Out(OutLink),
    Amend(Plan),
    Arrive(Minute),
    Depart(Minute),
}

pub fn changed(c: Change, v: Visit) -> Visit
    ensures { result ≡ change_by c v }
{
    match c {
        Change::In(link) => linked_in(link, v),
        Change::Out(link) => linked_out(link, v),
        Change::Amend(p) => amend_visit(p, v),
        Change::Arrive(time) => arrive(time, v),
        Change::Depart(time) => depart(time, v),
    }
}

// What the edits ask.

// Edit 4: v at s has no in-link and its out-link goes to p, whose visit w has s and that line as in-link.
pub fn stands_first(s: Station, p: Station, v: Visit, w: Visit) -> bool
    ensures { result ≡ first_stands s p v w }
{
    if !has_no_in(v) {
        return false;
    }
    match v.outward {
        OutLink::Nothing => false,
        OutLink::To(o) => o.station == p && is_from(w, s, o.line),
    }
}

// Edit 5, the mirror.
pub fn stands_last(s: Station, p: Station, v: Visit, w: Visit) -> bool
    ensures { result ≡ last_stands s p v w }
{
    if !has_no_out(v) {
        return false;
    }
    match v.inward {
        InLink::Nothing => false,
        InLink::From(i) => i.station == p && is_to(w, s, i.line),
    }
}

// The plan keeps arrival and track.
fn keeps_arrival(p: Plan, v: Visit) -> bool
    ensures { result ≡ keeps_arrival p v }
{
    p.arrival == v.arrival && p.track == v.track
}

// The departure has occurred and the plan has another.
fn alters_departure(p: Plan, v: Visit) -> bool
    ensures { result ≡ alters_departure p v }
{
    v.departed && p.departure != v.departure
}

// "11 an amendment alters an occurred time, or the track after an occurred arrival"
pub fn does_alter(p: Plan, v: Visit) -> bool
    ensures { result ≡ alters p v }
{
    (v.arrived && !keeps_arrival(p, v)) || alters_departure(p, v)
}
