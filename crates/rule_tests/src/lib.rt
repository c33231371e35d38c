// Which rules are broken by the visits of a sheet: the rules that tell of one train, and those that tell of two. `here`
// is the page of the station s.
#![tactic(auto, unfolding(timetable::specs::Visits::comes, timetable::specs::Visits::leaves, timetable::specs::Rules::out_line, crate::specs::between::Tests::opened))]

ghost use Rattle.std.specs.Prelude.{◌≡◌};
ghost use Rattle.page.specs.between.Changes.{table_in};
ghost use Rattle.visits.specs.between.Entries.{entry_of};
ghost use Rattle.rule_tests.specs.between.Tests.{held, broken, second_of, in_broken, out_broken, far_broken, clash};

use network::Network;
use page_rules::{lines, links};
use railway::sorts::{Station, Train};
use railway::visit::{InLink, Inward, OutLink, Outward};
use rules::{closed, stays};
use scope::Scope;
use sheet::station_page;
use visits::Entry;

// Rules that tell of one train: 1, 5, 6, 7, 8, 9, 11

fn is_out_broken(
    sheet: &[u8],
    n: &Network,
    scope: Scope,
    s: Station,
    rule: u16,
    t: Entry,
    o: Outward,
) -> bool
    ensures { result ≡ out_broken n.now scope (held sheet.now) s rule (entry_of t) o }
{
    if !scope::is_taken(n, scope, s, o.station) {
        return false;
    }
    let there = station_page::page_of(sheet, o.station);
    match rule {
        7 => !links::is_out_answered(s, t.train, o, there),
        _ => links::breaks_9(s, t, o, there),
    }
}

fn is_in_broken(sheet: &[u8], n: &Network, scope: Scope, s: Station, t: Train, i: Inward) -> bool
    ensures { result ≡ in_broken n.now scope (held sheet.now) s t i }
{
    scope::is_taken(n, scope, s, i.station)
        && !links::is_in_answered(s, t, i, station_page::page_of(sheet, i.station))
}

// 7, 8 and 9, where the visit has the link and the list takes its far station.
fn is_far_broken(sheet: &[u8], n: &Network, scope: Scope, s: Station, rule: u16, t: Entry) -> bool
    ensures { result ≡ far_broken n.now scope (held sheet.now) s rule (entry_of t) }
{
    if rule == 8 {
        match t.visit.inward {
            InLink::Nothing => false,
            InLink::From(i) => is_in_broken(sheet, n, scope, s, t.train, i),
        }
    } else {
        match t.visit.outward {
            OutLink::Nothing => false,
            OutLink::To(o) => is_out_broken(sheet, n, scope, s, rule, t, o),
        }
    }
}

// The rule stays a number here and below: `broken`, `second_of` and `clash` of specs/between/Tests.antt speak of each.
pub fn is_broken(
    sheet: &[u8],
    here: &[u8],
    n: &Network,
    scope: Scope,
    s: Station,
    rule: u16,
    t: Entry,
) -> bool
    ensures { result ≡ broken n.now scope (held sheet.now) (table_in here.now) s rule (entry_of t) }
{
    match rule {
        1 => stays::breaks_1(t.visit),
        5 => stays::breaks_5(n, t.train, t.visit),
        6 => lines::breaks_6(n, here, t),
        11 => closed::breaks_11(n, t.visit),
        _ => is_far_broken(sheet, n, scope, s, rule, t),
    }
}

// The second number of what they find: the line in rule 11, unused by the others.
pub fn second_of(rule: u16, t: Entry) -> u16
    ensures { result ≡ second_of rule (entry_of t) }
{
    match rule {
        11 => closed::line_out(t.visit),
        _ => 0,
    }
}

// Rules that tell of two trains: 2, 3, 10

pub fn does_clash(here: &[u8], n: &Network, s: Station, rule: u16, t: Entry, u: Entry) -> bool
    ensures { result ≡ clash n.now (table_in here.now) s rule (entry_of t) (entry_of u) }
{
    match rule {
        2 => stays::breaks_2(t.visit, u.visit),
        3 => stays::breaks_3(n.headway, t.visit, u.visit),
        _ => match t.visit.outward {
            OutLink::Nothing => false,
            OutLink::To(o) => lines::breaks_10(n, s, here, t, o, u),
        },
    }
}
