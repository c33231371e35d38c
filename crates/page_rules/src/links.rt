// Rules 7, 8 and 9: a link and the visit at its far end. `there` is the page of the far station.
ghost use Rattle.std.specs.Prelude.{◌≡◌};
ghost use Rattle.timetable.specs.Rules.{out_answered, in_answered, breaks_9};
ghost use Rattle.page.specs.between.Changes.{table_in};
ghost use Rattle.visits.specs.between.Entries.{entry_of};

use railway::sorts::{Station, Train};
use railway::visit::{Inward, Outward};
use rules::trains;
use visits::Entry;

// 7. "Out-link whose far visit is missing or lacks this station and line as in-link (else the link is answered)."
pub fn is_out_answered(s: Station, t: Train, o: Outward, there: &[u8]) -> bool
    ensures { result ≡ out_answered s t o (table_in there.now) }
{
    page::visit_of(there, t).is_some_and(|w| visits::is_from(w, s, o.line))
}

// 8. "The mirror for in-links."
pub fn is_in_answered(s: Station, t: Train, i: Inward, there: &[u8]) -> bool
    ensures { result ≡ in_answered s t i (table_in there.now) }
{
    page::visit_of(there, t).is_some_and(|w| visits::is_to(w, s, i.line))
}

// 9. "The out-link is answered, the far arrival is pending and isn't departure + run."
pub fn breaks_9(s: Station, t: Entry, o: Outward, there: &[u8]) -> bool
    ensures { result ≡ breaks_9 s (entry_of t) o (table_in there.now) }
{
    page::visit_of(there, t.train).is_some_and(|w| visits::is_from(w, s, o.line)
        && trains::does_miss(t.visit, o, w))
}
