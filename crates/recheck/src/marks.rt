// What an edit has redone at each station.
ghost use Rattle.std.specs.Prelude.{◌≡◌};
ghost use Rattle.timetable.specs.Machine.{meaning};
ghost use Rattle.actions.specs.between.Shapes.{shape_of};
ghost use Rattle.recheck.specs.between.Marks.{level_at, levels_of, marks_of};

use crate::joined::are_joined;
use actions::shape;
use actions::shape::Shape;
use network::Network;
use railway::edit::Edit;
use railway::sorts::Station;
use scope::redone;
use scope::redone::Marks;

// 2 at the edit's two stations, 1 at those joined to one of them, 0 elsewhere.
#[tactic(auto, unfolding(crate::specs::between::Marks::level_at))]
fn level_at(n: &Network, home: Station, away: Station, s: Station) -> u8
    ensures { result ≡ level_at n.now home away s }
{
    if s == home || s == away {
        2
    } else {
        u8::from(are_joined(n, home, s) || are_joined(n, away, s))
    }
}

fn levels_of(n: &Network, home: Station, away: Station) -> [u8; 16]
    ensures { result ≡ levels_of n.now home away }
{
    let mut levels = [0u8; 16];
    for i in 0..16u8 {
        levels[usize::from(i)] = level_at(n, home, away, Station(i + 1));
    }
    levels
}

#[tactic(auto, unfolding(crate::specs::between::Marks::marks_of))]
pub(crate) fn marks_of(n: &Network, e: Edit) -> Marks
    ensures { result ≡ marks_of n.now (shape_of (meaning e)) }
{
    match shape::shape_of(e) {
        Shape::Throughout(_) => redone::everywhere(),
        Shape::Local { home, away, .. } => Marks {
            everywhere: false,
            levels: levels_of(n, home, away),
        },
    }
}
