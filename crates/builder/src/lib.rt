// The numbers of a list of findings, in their order: stations rising, rules rising, first and second rising. Each
// function puts its numbers into the lent buffer from a place on and answers the place behind them; on a buffer that is
// too short it only counts. That no sum overflows is kept by the bounds of specs/between/Builder.antt.
#![tactic(auto)]

ghost use Rattle.std.specs.Prelude.{◌≡◌, ◌||◌, ◌+◌, ◌*◌, ◌≤◌, drop, length};
ghost use Rattle.timetable.specs.Findings.{is_far};
ghost use Rattle.timetable.specs.Outputs.{Puts};
ghost use Rattle.page.specs.between.Changes.{table_in};
ghost use Rattle.page.specs.between.Entries.{entry_at};
ghost use Rattle.visits.specs.between.Entries.{entry_of};
ghost use Rattle.rule_tests.specs.between.Tests.{held};
ghost use Rattle.scope.specs.Scopes.{takes};
ghost use Rattle.builder.specs.between.Builder.{visit_most, visits_most, relations_most, station_most, list_most};
ghost use Rattle.builder.specs.between.Builder.{against, facing, step, walk, unmet_numbers, rule_numbers, all_numbers, redone_station, redone_numbers};
ghost use Rattle.builder.specs.between.Kinds.{rule_number, each_rule};

use kinds::Rule;
use network::Network;
use page::entries;
use page_rules::relations;
use railway::sorts::Station;
use railway::visit::OutLink;
use records::record;
use scope::redone::Marks;
use scope::{Scope, redone};
use sheet::station_page;
use visits::Entry;

mod kinds; // the rules, and which of them are redone
mod put; // numbers put into the lent buffer

// The rules are numbered from 1 on: rule_count of specs/between/Builder.antt.
pub const RULES: u16 = 11;

// A station of a sheet, with its page there, and which findings the list takes.
#[derive(Clone, Copy, Debug, PartialEq, Eq, Hash)]
struct Lister<'a> {
    sheet: &'a [u8],
    here: &'a [u8],
    n: &'a Network,
    scope: Scope,
    s: Station,
}

impl<'a> Lister<'a> {
    // t with each train of a page from an index on. Merged into its callers: a rule needs few of t's values, and a call
    // would pass them all.
    #[inline(always)]
    fn list_against(
        &self,
        out: &mut [u16],
        at: usize,
        there: &[u8],
        from: usize,
        rule: Rule,
        t: Entry,
    ) -> usize
        requires { at ≤ 2 * list_most }
        ensures { Puts at (against self.now.n.now (table_in self.now.here.now) self.now.s (rule_number rule) (entry_of t) (drop from (table_in there.now).visits)) out.old result out.new visit_most }
    {
        let k = page::visit_count(there);
        let mut to = at;
        for i in from..k {
            let u = page_rules::entry_at(there, i);
            let found = rule_tests::does_clash(self.here, self.n, self.s, u16::from(rule), t, u);
            to = put::finding(out, to, found, self.s, rule, t.train.0, u.train.0);
        }
        to
    }

    // 10: t with each train at the far station of its out-link, where the list takes that.
    fn list_facing(&self, out: &mut [u16], at: usize, t: Entry) -> usize
        requires { at ≤ 2 * list_most }
        ensures { Puts at (facing self.now.n.now self.now.scope (held self.now.sheet.now) (table_in self.now.here.now) self.now.s (entry_of t)) out.old result out.new visit_most }
    {
        let OutLink::To(o) = t.visit.outward else {
            return at;
        };
        if scope::is_taken(self.n, self.scope, self.s, o.station) {
            let there = station_page::page_of(self.sheet, o.station);
            return self.list_against(out, at, there, 0, Rule::Opposed, t);
        }
        at
    }

    // One visit, by its index.
    fn list_one(&self, out: &mut [u16], at: usize, rule: Rule, i: usize) -> usize
        requires { (at ≤ 2 * list_most) × (i ≤ 24) }
        ensures { Puts at (step self.now.n.now self.now.scope (held self.now.sheet.now) (table_in self.now.here.now) self.now.s (rule_number rule) (entry_at i self.now.here.now) (drop (i + 1) (table_in self.now.here.now).visits)) out.old result out.new visit_most }
    {
        let t = page_rules::entry_at(self.here, i);
        match rule {
            Rule::TrackTaken | Rule::Headway => {
                self.list_against(out, at, self.here, i + 1, rule, t)
            }
            Rule::Opposed => self.list_facing(out, at, t),
            _ => {
                let number = u16::from(rule);
                let found = rule_tests::is_broken(
                    self.sheet, self.here, self.n, self.scope, self.s, number, t,
                );
                let second = rule_tests::second_of(number, t);
                put::finding(out, at, found, self.s, rule, t.train.0, second)
            }
        }
    }

    // All visits of the station.
    fn list_visits(&self, out: &mut [u16], at: usize, rule: Rule) -> usize
        requires { at ≤ list_most }
        ensures { Puts at (walk self.now.n.now self.now.scope (held self.now.sheet.now) (table_in self.now.here.now) self.now.s (rule_number rule) (table_in self.now.here.now).visits) out.old result out.new visits_most }
    {
        let k = page::visit_count(self.here);
        let mut to = at;
        for i in 0..k {
            to = self.list_one(out, to, rule, i);
        }
        to
    }

    // 4: the relations of the station, by their rank.
    fn list_unmet(&self, out: &mut [u16], at: usize) -> usize
        requires { at ≤ list_most }
        ensures { Puts at (unmet_numbers (table_in self.now.here.now) self.now.s 1 (table_in self.now.here.now).relations) out.old result out.new relations_most }
    {
        let k = page::relation_count(self.here);
        let mut to = at;
        for i in 0..k {
            let q = record::relation_in(entries::relation_record(self.here, i));
            let met = relations::is_met(self.here, q);
            let rank = i as u16 + 1;
            to = put::finding(out, to, !met, self.s, Rule::Unmet, rank, 0);
        }
        to
    }

    // Whether the list may take what the rule finds at the station.
    fn is_asked(&self, rule: Rule) -> bool
        ensures { result ≡ (is_far (rule_number rule) || takes self.now.n.now self.now.scope self.now.s self.now.s) }
    {
        redone::is_far(u16::from(rule)) || scope::is_taken(self.n, self.scope, self.s, self.s)
    }

    fn list_rule(&self, out: &mut [u16], at: usize, rule: Rule) -> usize
        requires { at ≤ list_most }
        ensures { Puts at (rule_numbers self.now.n.now self.now.scope (held self.now.sheet.now) (table_in self.now.here.now) self.now.s (rule_number rule)) out.old result out.new visits_most }
    {
        if !self.is_asked(rule) {
            return at;
        }
        match rule {
            Rule::Unmet => self.list_unmet(out, at),
            _ => self.list_visits(out, at, rule),
        }
    }

    // Some rules, which find no more than all.
    fn list_rules(&self, out: &mut [u16], at: usize, rules: &[Rule]) -> usize
        requires { (at + station_most ≤ list_most) × (length (each_rule self.now.n.now self.now.scope (held self.now.sheet.now) (table_in self.now.here.now) self.now.s rules.now) ≤ station_most) }
        ensures { Puts at (each_rule self.now.n.now self.now.scope (held self.now.sheet.now) (table_in self.now.here.now) self.now.s rules.now) out.old result out.new station_most }
    {
        let mut to = at;
        for rule in rules {
            to = self.list_rule(out, to, *rule);
        }
        to
    }
}

// What is redone at a station.
fn list_redone_at(
    out: &mut [u16],
    at: usize,
    sheet: &[u8],
    n: &Network,
    scope: Scope,
    marks: Marks,
    s: Station,
) -> usize
    requires { at + station_most ≤ list_most }
    ensures { Puts at (redone_station n.now scope marks (held sheet.now) s) out.old result out.new station_most }
{
    let here = station_page::page_of(sheet, s);
    let lister = Lister {
        sheet,
        here,
        n,
        scope,
        s,
    };
    let level = redone::level(marks, u16::from(s.0));
    lister.list_rules(out, at, kinds::rules_redone(level))
}

// What is redone, station by station, from the buffer's start.
pub fn list_redone(out: &mut [u16], sheet: &[u8], n: &Network, scope: Scope, marks: Marks) -> usize
    ensures { Puts 0 (redone_numbers n.now scope marks (held sheet.now)) out.old result out.new list_most }
{
    // Read as a slice, the array is known to have 16 rows.
    let _all = &n.stations[..];
    let rows = n.station_rows();
    let mut to: usize = 0;
    for row in rows {
        to = list_redone_at(out, to, sheet, n, scope, marks, row.station);
    }
    to
}

// A whole list: what is redone where all is.
pub fn list_all(out: &mut [u16], sheet: &[u8], n: &Network, scope: Scope) -> usize
    ensures { Puts 0 (all_numbers n.now scope (held sheet.now)) out.old result out.new list_most }
{
    list_redone(out, sheet, n, scope, redone::everywhere())
}
