// Times as wider numbers, so that sums do not overflow.
ghost use Rattle.std.specs.Prelude.{◌≡◌, ◌<◌};
ghost use Rattle.timetable.specs.Rules.{due};

use railway::visit::{Outward, Visit};

// Departure + run.
pub fn due(v: Visit, o: Outward) -> u32
    ensures { (result ≡ due v o) × (result < 65792) }
{
    u32::from(v.departure.0) + u32::from(o.run)
}
