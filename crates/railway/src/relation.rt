// "A station has a set of relations; each is a connection, a disconnection or a dependency, with an interval."
ghost use Rattle.std.specs.Prelude.{◌≡◌, ◌≤◌, length};
ghost use Rattle.railway.specs.Ranges.{interval_ok};
ghost use Rattle.railway.specs.Relations.{used, place_count, further_ok, trains_ok, pair_ok, relation_ok, group_key, key, precedes, same_relation};

use crate::sorts::Train;

// Four places for 2 to 4 trains, rising; 0 in a place is no train, and such places come last.
#[derive(Clone, Copy, Debug, PartialEq, Eq, Hash)]
pub struct Trains {
    pub a: Train,
    pub b: Train,
    pub c: Train,
    pub d: Train,
}

// "a dependency an arriver and a departer, perhaps the same"
#[derive(Clone, Copy, Debug, PartialEq, Eq, Hash)]
pub struct Pair {
    pub arriver: Train,
    pub departer: Train,
}

// Each with its interval.
#[derive(Clone, Copy, Debug, PartialEq, Eq, Hash)]
pub enum Relation {
    Connection(u8, Trains),
    Disconnection(u8, Trains),
    Dependency(u8, Pair),
}

// A place after the second: none, or a train above the one before it, which is there.
fn further(before: Train, train: Train) -> bool
    ensures { result ≡ further_ok before train }
{
    train.0 == 0 || (0 < before.0 && before < train && train.valid())
}

// 1 for a place that holds a train.
fn held(train: Train) -> u8
    ensures { (result ≡ place_count train) × (result ≤ 1) }
{
    u8::from(0 < train.0)
}

impl Trains {
    // The trains are in range, rise, and stand in the first places.
    pub fn valid(self) -> bool
        ensures { result ≡ trains_ok self }
    {
        self.a.valid()
            && self.a < self.b
            && self.b.valid()
            && further(self.b, self.c)
            && further(self.c, self.d)
    }

    // How many trains there are.
    #[tactic(auto, using(crate::proofs::RelationLaws::used_count))]
    pub fn count(self) -> u8
        ensures { result ≡ length (used self) }
    {
        held(self.a) + held(self.b) + held(self.c) + held(self.d)
    }

    // The numbers by which a connection or disconnection is ordered.
    fn key(self, kind: u16, interval: u8) -> [u16; 7]
        ensures { result ≡ group_key kind interval self }
    {
        [
            kind,
            u16::from(interval),
            u16::from(self.count()),
            self.a.0,
            self.b.0,
            self.c.0,
            self.d.0,
        ]
    }
}

impl Pair {
    pub fn valid(self) -> bool
        ensures { result ≡ pair_ok self }
    {
        self.arriver.valid() && self.departer.valid()
    }
}

// "Intervals are 0..240"
fn interval_valid(interval: u8) -> bool
    ensures { result ≡ interval_ok interval }
{
    interval <= 240
}

impl Relation {
    pub fn valid(self) -> bool
        ensures { result ≡ relation_ok self }
    {
        match self {
            Relation::Connection(i, ts) => interval_valid(i) && ts.valid(),
            Relation::Disconnection(i, ts) => interval_valid(i) && ts.valid(),
            Relation::Dependency(i, p) => interval_valid(i) && p.valid(),
        }
    }

    // "order: kind, interval, count of trains, trains"
    pub fn key(self) -> [u16; 7]
        ensures { result ≡ key self }
    {
        match self {
            Relation::Connection(i, ts) => ts.key(1, i),
            Relation::Disconnection(i, ts) => ts.key(2, i),
            Relation::Dependency(i, p) => [3, u16::from(i), 2, p.arriver.0, p.departer.0, 0, 0],
        }
    }

    // This one comes before the other: no derived order, as the count of trains stands before the trains.
    pub fn precedes(self, other: Relation) -> bool
        ensures { result ≡ precedes self other }
    {
        self.key() < other.key()
    }

    // Same kind, interval and trains.
    #[tactic(auto, using(base::proofs::Orders::same_lists), unfolding(crate::specs::Relations::same_relation))]
    pub fn same(self, other: Relation) -> bool
        ensures { result ≡ same_relation self other }
    {
        self.key() == other.key()
    }
}
