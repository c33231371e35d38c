// What an edit is refused with by the pages of its stations s (`here`) and p (`there`): 8 to 12. The definitions are the
// refusals of timetable/specs/Machine.antt.
#![tactic(auto, unfolding(crate::specs::between::Refusing::opened, timetable::specs::Machine::meaning, timetable::specs::Tables::has_visit))]

ghost use Rattle.std.specs.Prelude.{◌≡◌};
ghost use Rattle.base.specs.RefusalNumbers.{refusal_number};
ghost use Rattle.timetable.specs.Tables.{has_visit, full_visits, full_relations};
ghost use Rattle.timetable.specs.Machine.{meaning, room};
ghost use Rattle.page.specs.between.Changes.{table_in};
ghost use Rattle.edit_refusals.specs.Types.{Place, Amend};
ghost use Rattle.edit_refusals.specs.Types.{AddRelation, RemoveRelation};
ghost use Rattle.edit_refusals.specs.between.Refusing.{refuses_on, missing_visit, lacks_link, extend_refusal, end_stands, delete_refusal};

use base::refusal::Refusal;
use network::Network;
use railway::edit::{Deletion, Edit, Extension, Plan, StationRelation};
use railway::sorts::{Station, Train};
use railway::visit::Visit;

// The end of its journey at which an edit adds or removes a train's visit.
#[derive(Clone, Copy, Debug, PartialEq, Eq, Hash)]
enum End {
    First,
    Last,
}

fn is_there(page: &[u8], t: Train) -> bool
    ensures { result ≡ has_visit t (table_in page.now) }
{
    page::visit_of(page, t).is_some()
}

#[tactic(auto, unfolding(timetable::specs::Tables::full_visits))]
fn full(page: &[u8]) -> bool
    ensures { result ≡ full_visits (table_in page.now) }
{
    24 <= page::visit_count(page)
}

#[tactic(auto, unfolding(timetable::specs::Tables::full_relations))]
fn full_of_relations(page: &[u8]) -> bool
    ensures { result ≡ full_relations (table_in page.now) }
{
    6 <= page::relation_count(page)
}

// 12 where the station takes no visit more.
#[tactic(auto, unfolding(timetable::specs::Machine::room))]
fn room_at(here: &[u8], n: &Network, s: Station) -> Result<(), Refusal>
    ensures { refusal_number result ≡ room n.now s (table_in here.now) }
{
    if full(here) {
        return Err(Refusal::LimitReached);
    }
    Ok(())
}

fn refuse_place(here: &[u8], there: &[u8], n: &Network, p: Plan) -> Result<(), Refusal>
    ensures { refusal_number result ≡ refuses_on n.now (meaning (Place p)) here.now there.now }
{
    if is_there(here, p.train) {
        return Err(Refusal::ThereAlready);
    }
    room_at(here, n, p.station)
}

// The visit has no link yet where a prepended one, or an appended one, is joined to it.
fn is_free(end: End, v: Visit) -> bool
    ensures { result ≡ lacks_link end v }
{
    match end {
        End::First => visits::has_no_in(v),
        End::Last => visits::has_no_out(v),
    }
}

// Edits 2 and 3.
fn refuse_extend(
    here: &[u8],
    there: &[u8],
    n: &Network,
    x: Extension,
    end: End,
) -> Result<(), Refusal>
    ensures { refusal_number result ≡ extend_refusal n.now x end here.now there.now }
{
    let p = x.plan;
    if is_there(here, p.train) {
        return Err(Refusal::ThereAlready);
    }
    let v = page::visit_of(there, p.train).ok_or(Refusal::Missing)?;
    if !is_free(end, v) {
        return Err(Refusal::LinkedOtherwise);
    }
    room_at(here, n, p.station)
}

// v at s and w at p are linked as the deletion of the first visit, or of the last one, needs.
fn stands(d: Deletion, end: End, v: Visit, w: Visit) -> bool
    ensures { result ≡ end_stands d end v w }
{
    match end {
        End::First => visits::stands_first(d.station, d.other, v, w),
        End::Last => visits::stands_last(d.station, d.other, v, w),
    }
}

// Edits 4 and 5.
fn refuse_delete(here: &[u8], there: &[u8], d: Deletion, end: End) -> Result<(), Refusal>
    ensures { refusal_number result ≡ delete_refusal d end here.now there.now }
{
    let v = page::visit_of(here, d.train).ok_or(Refusal::Missing)?;
    let w = page::visit_of(there, d.train).ok_or(Refusal::Missing)?;
    if !stands(d, end, v, w) {
        return Err(Refusal::LinkedOtherwise);
    }
    Ok(())
}

fn refuse_amend(here: &[u8], there: &[u8], n: &Network, p: Plan) -> Result<(), Refusal>
    ensures { refusal_number result ≡ refuses_on n.now (meaning (Amend p)) here.now there.now }
{
    let v = page::visit_of(here, p.train).ok_or(Refusal::Missing)?;
    if visits::does_alter(p, v) {
        return Err(Refusal::AltersOccurred);
    }
    Ok(())
}

// Edits 7 and 8.
fn refuse_report(here: &[u8], t: Train) -> Result<(), Refusal>
    ensures { refusal_number result ≡ missing_visit t here.now }
{
    if !is_there(here, t) {
        return Err(Refusal::Missing);
    }
    Ok(())
}

fn refuse_add_relation(
    here: &[u8],
    there: &[u8],
    n: &Network,
    r: StationRelation,
) -> Result<(), Refusal>
    ensures { refusal_number result ≡ refuses_on n.now (meaning (AddRelation r)) here.now there.now }
{
    if page::has_relation(here, r.relation) {
        return Err(Refusal::ThereAlready);
    }
    if full_of_relations(here) {
        return Err(Refusal::LimitReached);
    }
    Ok(())
}

fn refuse_remove_relation(
    here: &[u8],
    there: &[u8],
    n: &Network,
    r: StationRelation,
) -> Result<(), Refusal>
    ensures { refusal_number result ≡ refuses_on n.now (meaning (RemoveRelation r)) here.now there.now }
{
    if !page::has_relation(here, r.relation) {
        return Err(Refusal::Missing);
    }
    Ok(())
}

// 8 to 12.
pub fn refusal_of(here: &[u8], there: &[u8], n: &Network, e: Edit) -> Result<(), Refusal>
    ensures { refusal_number result ≡ refuses_on n.now (meaning e) here.now there.now }
{
    match e {
        Edit::Place(p) => refuse_place(here, there, n, p),
        Edit::Prepend(x) => refuse_extend(here, there, n, x, End::First),
        Edit::Append(x) => refuse_extend(here, there, n, x, End::Last),
        Edit::DeleteFirst(d) => refuse_delete(here, there, d, End::First),
        Edit::DeleteLast(d) => refuse_delete(here, there, d, End::Last),
        Edit::Amend(p) => refuse_amend(here, there, n, p),
        Edit::ReportArrival(r) => refuse_report(here, r.train),
        Edit::ReportDeparture(r) => refuse_report(here, r.train),
        Edit::AddRelation(r) => refuse_add_relation(here, there, n, r),
        Edit::RemoveRelation(r) => refuse_remove_relation(here, there, n, r),
        Edit::DeleteTrain(_) => Ok(()),
    }
}
