// Rules 1, 2, 3 and 5: tests of one visit, or of two at one station. Of rule 4 the tests of two visits.
ghost use Rattle.std.specs.Prelude.{◌≡◌, ◌+◌, leb};
ghost use Rattle.timetable.specs.Rules.{breaks_1, comes_too_soon, both_too_soon, stands_for, breaks_2, on_one_line, breaks_3, connected, disconnected, depends, breaks_5};
ghost use Rattle.rules.specs.between.Parts.{runs_below};

use network::Network;
use railway::minute::Minute;
use railway::sorts::Train;
use railway::visit::{OutLink, Outward, Visit};

// 1. "Departure before arrival, or occurred with arrival pending."
pub fn breaks_1(v: Visit) -> bool
    ensures { result ≡ breaks_1 v }
{
    v.departure < v.arrival || (v.departed && !v.arrived)
}

// "u's arrival is pending and earlier than t's departure + 1"
fn comes_too_soon(v: Visit, w: Visit) -> bool
    ensures { result ≡ comes_too_soon v w }
{
    !w.arrived && w.arrival <= v.departure
}

// "both: ..; the same with t and u exchanged."
fn both_too_soon(v: Visit, w: Visit) -> bool
    ensures { result ≡ both_too_soon v w }
{
    comes_too_soon(v, w) && comes_too_soon(w, v)
}

// W2: "a standing train holds its track"
fn stands_for(v: Visit, w: Visit) -> bool
    ensures { result ≡ stands_for v w }
{
    v.arrived && !v.departed && comes_too_soon(v, w)
}

// 2. "t < u, same track"; W2: "t, either of them"; "The other cases of rule 2 remain."
pub fn breaks_2(v: Visit, w: Visit) -> bool
    ensures { result ≡ breaks_2 v w }
{
    v.track == w.track && (both_too_soon(v, w) || stands_for(v, w) || stands_for(w, v))
}

// "t < u leave on one line"
fn on_one_line(v: Visit, w: Visit) -> bool
    ensures { result ≡ on_one_line v w }
{
    match (v.outward, w.outward) {
        (OutLink::To(o), OutLink::To(q)) => o.line == q.line,
        _ => false,
    }
}

// 3. "t < u leave on one line, either pending, departures closer than the headway."
pub fn breaks_3(headway: u8, v: Visit, w: Visit) -> bool
    ensures { result ≡ breaks_3 headway v w }
{
    on_one_line(v, w)
        && !(v.departed && w.departed)
        && v.departure.0.abs_diff(w.departure.0) < u16::from(headway)
}

// The time is the interval or more after the other one.
fn is_after(time: Minute, interval: u8, other: Minute) -> bool
    ensures { result ≡ leb (other.0 + interval) time.0 }
{
    u32::from(other.0) + u32::from(interval) <= u32::from(time.0)
}

// 4. "for each two of which either departure is pending, earlier departure less later arrival is at least the interval"
pub fn is_connected(interval: u8, v: Visit, w: Visit) -> bool
    ensures { result ≡ connected interval v w }
{
    (v.departed && w.departed)
        || u32::from(v.arrival.0.max(w.arrival.0)) + u32::from(interval)
            <= u32::from(v.departure.0.min(w.departure.0))
}

// "of each two that stop, one arrives the interval or more after the other departs, or both arrivals have occurred"
pub fn is_disconnected(interval: u8, v: Visit, w: Visit) -> bool
    ensures { result ≡ disconnected interval v w }
{
    !(visits::does_stop(v) && visits::does_stop(w))
        || is_after(w.arrival, interval, v.departure)
        || is_after(v.arrival, interval, w.departure)
        || (v.arrived && w.arrived)
}

// "both visit and stop; if the departer's departure is pending, it is the interval or more after the arriver's arrival"
pub fn does_depend(interval: u8, v: Visit, w: Visit) -> bool
    ensures { result ≡ depends interval v w }
{
    visits::does_stop(v)
        && visits::does_stop(w)
        && (w.departed || is_after(w.departure, interval, v.arrival))
}

// The running time is below the least of the link's line and the train.
fn runs_below(n: &Network, t: Train, o: Outward) -> bool
    ensures { result ≡ runs_below n.now t o }
{
    n.line_row(o.line)
        .is_some_and(|row| o.run < row.least_time(t))
}

// 5. "Run below the line's least."; W3: "The least time is then that of a line and a train, and rule 5 follows it."
pub fn breaks_5(n: &Network, t: Train, v: Visit) -> bool
    ensures { result ≡ breaks_5 n.now t v }
{
    match v.outward {
        OutLink::Nothing => false,
        OutLink::To(o) => runs_below(n, t, o),
    }
}
