// Rule 11: departures onto a line that is closed.
ghost use Rattle.std.specs.Prelude.{◌≡◌};
ghost use Rattle.base.specs.Lists.{any};
ghost use Rattle.network.specs.Networks.{closure_rows};
ghost use Rattle.timetable.specs.Rules.{shuts, breaks_11, out_line};

use crate::clock;
use network::{Closure, Network};
use railway::visit::{OutLink, Outward, Visit};

// The run from the departure on shares a minute with the closure, and its line is the run's.
fn does_shut(c: Closure, v: Visit, o: Outward) -> bool
    ensures { result ≡ shuts v o c }
{
    c.line == o.line && v.departure.0 < c.end.0 && u32::from(c.start.0) < clock::due(v, o)
}

// Some closure shuts the run.
#[tactic(auto, unfolding(base::specs::Lists::any))]
fn is_shut(n: &Network, v: Visit, o: Outward) -> bool
    ensures { result ≡ any (shuts v o) (closure_rows n.now) }
{
    n.closure_rows().iter().any(|c| does_shut(*c, v, o))
}

// 11. "A pending departure whose occupation .. shares a minute with a closure of its line"
pub fn breaks_11(n: &Network, v: Visit) -> bool
    ensures { result ≡ breaks_11 n.now v }
{
    if v.departed {
        return false;
    }
    match v.outward {
        OutLink::Nothing => false,
        OutLink::To(o) => is_shut(n, v, o),
    }
}

// The line of the out-link, 0 without one.
pub fn line_out(v: Visit) -> u16
    ensures { result ≡ out_line v.outward }
{
    match v.outward {
        OutLink::Nothing => 0,
        OutLink::To(o) => u16::from(o.line.0),
    }
}
