// A train taken out of a relation. "A relation without t stays. A connection or disconnection loses t, and vanishes
// under two trains. A dependency with t vanishes."
#![tactic(auto, unfolding(timetable::specs::Tables::lose, crate::specs::between::Left::opened))]

ghost use Rattle.std.specs.Prelude.{not, ◌&&◌, ◌≡◌, option_map};
ghost use Rattle.base.specs.Lists.{any, keep};
ghost use Rattle.railway.specs.Ranges.{same_train};
ghost use Rattle.railway.specs.Relations.{present, used};
ghost use Rattle.timetable.specs.Tables.{packed, lose};
ghost use Rattle.relation_loss.specs.between.Left.{shifted, lose_group};
ghost use Rattle.relation_loss.specs.Types.{Trains, Relation};

use railway::relation::{Relation, Trains};
use railway::sorts::Train;

#[tactic(auto, using(crate::proofs::TrainsLeft::any_used))]
fn has_train(ts: Trains, train: Train) -> bool
    ensures { result ≡ any (same_train train) (used ts) }
{
    holds(ts.a, train) || holds(ts.b, train) || holds(ts.c, train) || holds(ts.d, train)
}

// The place holds the train.
fn holds(place: Train, train: Train) -> bool
    ensures { result ≡ (present place && same_train train place) }
{
    0 < place.0 && train == place
}

// One place before the others: kept if it holds a train, and not the one that is taken out.
fn put_before(rest: Trains, place: Train, train: Train) -> Trains
    ensures { result ≡ shifted train place rest }
{
    if 0 < place.0 && train != place {
        return Trains {
            a: place,
            b: rest.a,
            c: rest.b,
            d: rest.c,
        };
    }
    rest
}

// The trains that stay, in the first places.
fn others(ts: Trains, train: Train) -> Trains
    ensures { result ≡ packed (keep (λ u. not (same_train train u)) (used ts)) }
{
    let none = Trains {
        a: Train(0),
        b: Train(0),
        c: Train(0),
        d: Train(0),
    };
    let last = put_before(none, ts.d, train);
    let later = put_before(last, ts.c, train);
    let behind = put_before(later, ts.b, train);
    put_before(behind, ts.a, train)
}

// What stays of a group's trains, if two are left.
fn fewer(ts: Trains, train: Train) -> Option<Trains>
    ensures { (make : Trains → Relation) → option_map make result ≡ lose_group make train ts }
{
    if !has_train(ts, train) {
        return Some(ts);
    }
    let us = others(ts, train);
    if us.b.0 == 0 {
        return None;
    }
    Some(us)
}

// The relation without the train.
pub fn lose(relation: Relation, train: Train) -> Option<Relation>
    ensures { result ≡ lose train relation }
{
    match relation {
        Relation::Connection(i, ts) => fewer(ts, train).map(|us| Relation::Connection(i, us)),
        Relation::Disconnection(i, ts) => fewer(ts, train).map(|us| Relation::Disconnection(i, us)),
        Relation::Dependency(i, p) => {
            if train == p.arriver || train == p.departer {
                return None;
            }
            Some(Relation::Dependency(i, p))
        }
    }
}
