// What a network knows of an edit: "7 station, track or line unknown, or the line doesn't run that way".
ghost use Rattle.std.specs.Prelude.{◌≡◌};
ghost use Rattle.base.specs.RefusalNumbers.{refusal_number};
ghost use Rattle.timetable.specs.Machine.{meaning};
ghost use Rattle.actions.specs.Early.{plan_fits, line_fits, fits_of, fits_network, unknown_refusal};

use crate::shape;
use crate::shape::Shape;
use base::refusal::Refusal;
use network::Network;
use railway::edit::{Edit, Plan};
use railway::sorts::{Line, Station};

fn plan_fits(n: &Network, p: Plan) -> bool
    ensures { result ≡ plan_fits n.now p }
{
    n.track_known(p.station, p.track)
}

fn line_fits(n: &Network, p: Plan, l: Line, from: Station, to: Station) -> bool
    ensures { result ≡ line_fits n.now p l from to }
{
    plan_fits(n, p) && n.runs(l, from, to)
}

// The track and the line are known, and the line runs that way.
#[tactic(auto, unfolding(crate::specs::Early::fits_of, timetable::specs::Machine::meaning))]
fn fits(n: &Network, e: Edit) -> bool
    ensures { result ≡ fits_of n.now (meaning e) }
{
    match e {
        Edit::Place(p) => plan_fits(n, p),
        Edit::Prepend(x) => line_fits(n, x.plan, x.line, x.plan.station, x.other),
        Edit::Append(x) => line_fits(n, x.plan, x.line, x.other, x.plan.station),
        Edit::Amend(p) => plan_fits(n, p),
        Edit::DeleteFirst(_) | Edit::DeleteLast(_) | Edit::DeleteTrain(_) => true,
        Edit::ReportArrival(_) | Edit::ReportDeparture(_) => true,
        Edit::AddRelation(_) | Edit::RemoveRelation(_) => true,
    }
}

// And so are its stations.
#[tactic(auto, using(crate::proofs::EarlyLaws::known_ends, crate::proofs::EarlyLaws::known_everywhere))]
fn knows(n: &Network, e: Edit) -> bool
    ensures { result ≡ fits_network n.now (meaning e) }
{
    match shape::shape_of(e) {
        Shape::Local { home, away, .. } => n.listed(home) && n.listed(away) && fits(n, e),
        Shape::Throughout(_) => true,
    }
}

// 7.
#[tactic(auto, unfolding(crate::specs::Early::unknown_refusal))]
pub fn unknown_refusal(n: &Network, e: Edit) -> Result<(), Refusal>
    ensures { refusal_number result ≡ unknown_refusal n.now e }
{
    if !knows(n, e) {
        return Err(Refusal::NotKnown);
    }
    Ok(())
}
