// What an edit makes of the page of its station s, and of that of p.
#![tactic(auto, unfolding(crate::specs::between::EditPages::opened, visits::specs::between::Changes::change_by))]

ghost use Rattle.std.specs.Prelude.{◌≡◌};
ghost use Rattle.visits.specs.between.Changes.{change_by};
ghost use Rattle.edit_changes.specs.Types.{Place, Prepend, Append};
ghost use Rattle.edit_changes.specs.between.EditPages.{page_change, page_without, here_page, there_page};

use railway::edit::{Edit, Extension, Plan};
use railway::sorts::Train;
use railway::visit::{InLink, OutLink};
use visits::Change;

// The train's visit, if it is there.
fn change_visit(page: &mut [u8], t: Train, c: Change)
    ensures { page.new ≡ page_change t (change_by c) page.old }
{
    if let Some(v) = page::visit_of(page, t) {
        page::write_visit(page, t, visits::changed(c, v));
    }
}

// The train's visit and the train in relations are taken out.
pub fn take_out(page: &mut [u8], t: Train)
    ensures { page.new ≡ page_without t page.old }
{
    page::remove_visit(page, t);
    page::lose_train(page, t);
}

fn prepend(page: &mut [u8], x: Extension)
    ensures { page.new ≡ here_page (Prepend x) page.old }
{
    let link = visits::link_to(x.other, x.line, x.run);
    let v = visits::linked_out(link, visits::plan_visit(x.plan));
    page::add_visit(page, x.plan.train, v);
}

fn append(page: &mut [u8], x: Extension)
    ensures { page.new ≡ here_page (Append x) page.old }
{
    let link = visits::link_from(x.other, x.line);
    let v = visits::linked_in(link, visits::plan_visit(x.plan));
    page::add_visit(page, x.plan.train, v);
}

fn place(page: &mut [u8], p: Plan)
    ensures { page.new ≡ here_page (Place p) page.old }
{
    page::add_visit(page, p.train, visits::plan_visit(p));
}

// The page of s afterwards.
pub fn change_here(page: &mut [u8], e: Edit)
    ensures { page.new ≡ here_page e page.old }
{
    match e {
        Edit::Place(p) => place(page, p),
        Edit::Prepend(x) => prepend(page, x),
        Edit::Append(x) => append(page, x),
        Edit::DeleteFirst(d) => take_out(page, d.train),
        Edit::DeleteLast(d) => take_out(page, d.train),
        Edit::Amend(p) => change_visit(page, p.train, Change::Amend(p)),
        Edit::ReportArrival(r) => change_visit(page, r.train, Change::Arrive(r.time)),
        Edit::ReportDeparture(r) => change_visit(page, r.train, Change::Depart(r.time)),
        Edit::AddRelation(r) => {
            page::add_relation(page, r.relation);
        }
        Edit::RemoveRelation(r) => page::remove_relation(page, r.relation),
        Edit::DeleteTrain(c) => take_out(page, c.train),
    }
}

// The page of p afterwards.
pub fn change_there(page: &mut [u8], e: Edit)
    ensures { page.new ≡ there_page e page.old }
{
    match e {
        Edit::Prepend(x) => {
            let link = visits::link_from(x.plan.station, x.line);
            change_visit(page, x.plan.train, Change::In(link))
        }
        Edit::Append(x) => {
            let link = visits::link_to(x.plan.station, x.line, x.run);
            change_visit(page, x.plan.train, Change::Out(link))
        }
        Edit::DeleteFirst(d) => change_visit(page, d.train, Change::In(InLink::Nothing)),
        Edit::DeleteLast(d) => change_visit(page, d.train, Change::Out(OutLink::Nothing)),
        Edit::Place(_) | Edit::Amend(_) | Edit::DeleteTrain(_) => {}
        Edit::ReportArrival(_) | Edit::ReportDeparture(_) => {}
        Edit::AddRelation(_) | Edit::RemoveRelation(_) => {}
    }
}
