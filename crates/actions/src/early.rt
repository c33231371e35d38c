// What refuses an edit before any sheet is looked at, in the order of every call: 3, 15, 14, 4, 7.
ghost use Rattle.std.specs.Prelude.{◌≡◌};
ghost use Rattle.base.specs.RefusalNumbers.{refusal_number};
ghost use Rattle.timetable.specs.Refusals.{early};
ghost use Rattle.timetable.specs.Machine.{edit_refusal};
ghost use Rattle.timetable.specs.Reports.{ahead, future};
ghost use Rattle.actions.specs.Early.{unknown_refusal, early_refusal};

use crate::known;
use base::refusal::Refusal;
use network::Network;
use railway::edit::{Edit, Report};

// By the call's own values, by the network, then by both: 3 first.
pub fn in_order(
    own: Result<(), Refusal>,
    network: Result<(), Refusal>,
    both: Result<(), Refusal>,
) -> Result<(), Refusal>
    ensures { refusal_number result ≡ early (refusal_number own) (refusal_number network) (refusal_number both) }
{
    if network == Err(Refusal::OutOfRange) {
        return network;
    }
    own.and(network).and(both)
}

// "a report whose event time is later than the minute it carries"
#[tactic(auto, unfolding(timetable::specs::Reports::ahead))]
fn ahead(r: Report) -> bool
    ensures { result ≡ ahead r }
{
    r.present < r.time
}

#[tactic(auto, unfolding(timetable::specs::Reports::future))]
fn future(e: Edit) -> bool
    ensures { result ≡ future e }
{
    match e {
        Edit::ReportArrival(r) | Edit::ReportDeparture(r) => ahead(r),
        Edit::Place(_) | Edit::Prepend(_) | Edit::Append(_) => false,
        Edit::DeleteFirst(_) | Edit::DeleteLast(_) | Edit::DeleteTrain(_) => false,
        Edit::Amend(_) => false,
        Edit::AddRelation(_) | Edit::RemoveRelation(_) => false,
    }
}

// 3 or 15 of the edit's own values.
#[tactic(auto, unfolding(timetable::specs::Machine::edit_refusal))]
pub fn edit_refusal(e: Edit) -> Result<(), Refusal>
    ensures { refusal_number result ≡ edit_refusal e }
{
    if !e.valid() {
        return Err(Refusal::OutOfRange);
    }
    if future(e) {
        return Err(Refusal::FromTheFuture);
    }
    Ok(())
}

// Where the network's own refusal is known: it is not tested again for each edit of a list.
pub fn refusal_under(n: &Network, network: Result<(), Refusal>, e: Edit) -> Result<(), Refusal>
    ensures { refusal_number result ≡ early (edit_refusal e) (refusal_number network) (unknown_refusal n.now e) }
{
    in_order(edit_refusal(e), network, known::unknown_refusal(n, e))
}

// 3 of the edit or the network, 15, 14, 4, 7.
#[tactic(auto, unfolding(crate::specs::Early::early_refusal))]
pub fn early_refusal(n: &Network, e: Edit) -> Result<(), Refusal>
    ensures { refusal_number result ≡ early_refusal n.now e }
{
    refusal_under(n, n.check(), e)
}
