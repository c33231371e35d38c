// Rule 4: whether a relation is met by the visits of a page.
ghost use Rattle.std.specs.Prelude.{◌≡◌, Bool};
ghost use Rattle.base.specs.Lists.{every, is, each_two};
ghost use Rattle.railway.specs.Relations.{used};
ghost use Rattle.timetable.specs.Tables.{visit_of};
ghost use Rattle.timetable.specs.Rules.{both_visit, met};
ghost use Rattle.page.specs.between.Changes.{table_in};
ghost use Rattle.page_rules.specs.Types.{Visit};
ghost use Rattle.page_rules.specs.between.Parts.{one_met, two_met};

use railway::relation::{Relation, Trains};
use railway::sorts::Train;
use railway::visit::Visit;
use rules::stays;

// The train visits, and the test holds of its visit. A place that holds no train asks nothing.
fn one_met<F: Fn(Visit) -> bool>(page: &[u8], t: Train, test: &F) -> bool
    requires { F.IsAlwaysCallable test.now }
    ensures { (f : Visit → Bool) → ((v : Visit) (b : Bool) → F.post test.now v b → b ≡ f v) → result ≡ one_met f (table_in page.now) t }
{
    t.0 == 0 || page::visit_of(page, t).is_some_and(|v| test(v))
}

// Both trains visit, and the test holds of their visits.
fn both_visit<F: Fn(Visit, Visit) -> bool>(page: &[u8], t: Train, u: Train, test: &F) -> bool
    requires { F.IsAlwaysCallable test.now }
    ensures { (f : Visit → Visit → Bool) → ((v w : Visit) (b : Bool) → F.post test.now v w b → b ≡ f v w) → result ≡ both_visit f (table_in page.now) t u }
{
    match (page::visit_of(page, t), page::visit_of(page, u)) {
        (Some(v), Some(w)) => test(v, w),
        _ => false,
    }
}

// Two places of a relation: a place that holds no train asks nothing.
fn two_met<F: Fn(Visit, Visit) -> bool>(page: &[u8], t: Train, u: Train, test: &F) -> bool
    requires { F.IsAlwaysCallable test.now }
    ensures { (f : Visit → Visit → Bool) → ((v w : Visit) (b : Bool) → F.post test.now v w b → b ≡ f v w) → result ≡ two_met f (table_in page.now) t u }
{
    t.0 == 0 || u.0 == 0 || both_visit(page, t, u, test)
}

#[tactic(auto, using(crate::proofs::RuleLaws::each_place))]
// All visit, and the test holds of each visit.
fn each_met<F: Fn(Visit) -> bool>(page: &[u8], ts: Trains, test: &F) -> bool
    requires { F.IsAlwaysCallable test.now }
    ensures { (f : Visit → Bool) → ((v : Visit) (b : Bool) → F.post test.now v b → b ≡ f v) → result ≡ every (λ t. is f (visit_of t (table_in page.now))) (used ts) }
{
    [ts.a, ts.b, ts.c, ts.d]
        .iter()
        .all(|t| one_met(page, *t, test))
}

// Each two visit, and the test holds of their visits.
fn pairs_met<F: Fn(Visit, Visit) -> bool>(page: &[u8], ts: Trains, test: &F) -> bool
    requires { F.IsAlwaysCallable test.now }
    ensures { (f : Visit → Visit → Bool) → ((v w : Visit) (b : Bool) → F.post test.now v w b → b ≡ f v w) → result ≡ each_two (both_visit f (table_in page.now)) (used ts) }
{
    [
        (ts.a, ts.b),
        (ts.a, ts.c),
        (ts.a, ts.d),
        (ts.b, ts.c),
        (ts.b, ts.d),
        (ts.c, ts.d),
    ]
    .iter()
    .all(|(t, u)| two_met(page, *t, *u, test))
}

// 4. "Unmet" is its contrary.
pub fn is_met(page: &[u8], relation: Relation) -> bool
    ensures { result ≡ met (table_in page.now) relation }
{
    match relation {
        Relation::Connection(i, ts) => {
            each_met(page, ts, &visits::does_stop)
                && pairs_met(page, ts, &|v, w| stays::is_connected(i, v, w))
        }
        Relation::Disconnection(i, ts) => {
            each_met(page, ts, &|_| true)
                && pairs_met(page, ts, &|v, w| stays::is_disconnected(i, v, w))
        }
        Relation::Dependency(i, p) => {
            both_visit(
                page,
                p.arriver,
                p.departer,
                &|v, w| stays::does_depend(i, v, w),
            )
        }
    }
}
