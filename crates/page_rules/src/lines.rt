// Rules 6 and 10: trains on one line. `here` is the page of s, `there` that of the far station.
ghost use Rattle.std.specs.Prelude.{◌≡◌, length};
ghost use Rattle.base.specs.Lists.{any};
ghost use Rattle.timetable.specs.Rules.{caught, crowded, breaks_6, arrival_of, opposes, breaks_10};
ghost use Rattle.page.specs.between.Changes.{table_in};
ghost use Rattle.visits.specs.between.Entries.{entry_of};
ghost use Rattle.page_rules.specs.between.Parts.{leaders, crowds, towards};

use crate::entry_at;
use network::{LineRow, Network};
use railway::sorts::Station;
use railway::visit::{OutLink, Outward};
use rules::{clock, trains};
use visits::Entry;

// How many trains are ahead of t.
fn count_ahead(page: &[u8], t: Entry, o: Outward) -> usize
    ensures { result ≡ length (leaders t.train t.visit o (table_in page.now).visits) }
{
    (0..page::visit_count(page))
        .filter(|i| trains::does_lead(t, o, entry_at(page, *i)))
        .count()
}

// One of them is caught.
fn any_caught(page: &[u8], t: Entry, o: Outward) -> bool
    ensures { result ≡ any (caught t.visit o) (leaders t.train t.visit o (table_in page.now).visits) }
{
    (0..page::visit_count(page)).any(|i| trains::does_catch(t, o, entry_at(page, i)))
}

// "There are some, and they number the capacity or more, or one's departure + run isn't below t's."
fn is_crowded(row: LineRow, page: &[u8], t: Entry, o: Outward) -> bool
    ensures { result ≡ crowded row t.visit o (leaders t.train t.visit o (table_in page.now).visits) }
{
    let k = count_ahead(page, t, o);
    0 < k && (usize::from(row.capacity) <= k || any_caught(page, t, o))
}

fn does_crowd(n: &Network, page: &[u8], t: Entry, o: Outward) -> bool
    ensures { result ≡ crowds n.now t.train t.visit o (table_in page.now).visits }
{
    n.line_row(o.line)
        .is_some_and(|row| is_crowded(row, page, t, o))
}

// 6. "t's departure is pending; trains u .."
pub fn breaks_6(n: &Network, page: &[u8], t: Entry) -> bool
    ensures { result ≡ breaks_6 n.now (table_in page.now).visits (entry_of t) }
{
    if t.visit.departed {
        return false;
    }
    match t.visit.outward {
        OutLink::Nothing => false,
        OutLink::To(o) => does_crowd(n, page, t, o),
    }
}

// 10. "u's arrival is that at s if its link is answered, else departure + run": u leaves p towards s by q.
fn arrival_of(here: &[u8], p: Station, u: Entry, q: Outward) -> u32
    ensures { result ≡ arrival_of (table_in here.now) p (entry_of u) q }
{
    match page::visit_of(here, u.train) {
        Some(x) => trains::arrival_by(x, p, u.visit, q),
        None => clock::due(u.visit, q),
    }
}

// u leaves by q "on it towards s, and neither arrives before t departs nor departs after t's departure + run": t leaves
// by o.
fn comes_towards(here: &[u8], s: Station, t: Entry, o: Outward, u: Entry, q: Outward) -> bool
    ensures { result ≡ towards (table_in here.now) s t.visit o (entry_of u) q }
{
    trains::is_towards(s, o, q)
        && trains::does_meet(arrival_of(here, o.station, u, q), t.visit, o, u.visit)
}

fn does_oppose(here: &[u8], s: Station, t: Entry, o: Outward, u: Entry) -> bool
    ensures { result ≡ opposes (table_in here.now) s (entry_of t) o (entry_of u) }
{
    if t.train == u.train {
        return false;
    }
    match u.visit.outward {
        OutLink::Nothing => false,
        OutLink::To(q) => comes_towards(here, s, t, o, u, q),
    }
}

// 10. "Line of kind 3, t's departure pending": t leaves s by o, u has its visit at the far station.
pub fn breaks_10(n: &Network, s: Station, here: &[u8], t: Entry, o: Outward, u: Entry) -> bool
    ensures { result ≡ breaks_10 n.now s (table_in here.now) (entry_of t) o (entry_of u) }
{
    !t.visit.departed && trains::is_both_ways(n, o) && does_oppose(here, s, t, o, u)
}
