// The pairs of areas in their order, from 1 and 2 to 5 and 6.
ghost use Rattle.std.specs.Prelude.{◌≡◌, get_or};
ghost use Rattle.base.specs.Lists.{pairs};
ghost use Rattle.timetable.specs.Groups.{six};

use railway::sorts::Area;

#[derive(Clone, Copy, Debug, PartialEq, Eq, Hash)]
pub struct Pair {
    pub first: Area,
    pub second: Area,
}

const PAIRS: [(u8, u8); 15] = [
    (1, 2),
    (1, 3),
    (1, 4),
    (1, 5),
    (1, 6),
    (2, 3),
    (2, 4),
    (2, 5),
    (2, 6),
    (3, 4),
    (3, 5),
    (3, 6),
    (4, 5),
    (4, 6),
    (5, 6),
];

// The pair with this index, from 0; behind the fifteenth two areas 0.
pub fn pair_at(i: usize) -> Pair
    ensures { (result.first.0, result.second.0) ≡ get_or (pairs six) i (0, 0) }
{
    let (first, second) = PAIRS.get(i).copied().unwrap_or((0, 0));
    Pair {
        first: Area(first),
        second: Area(second),
    }
}
