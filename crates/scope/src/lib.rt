// Which findings a list takes, by the station of a finding and its far station.
#![tactic(auto, unfolding(timetable::specs::Groups::in_group, timetable::specs::Findings::is_far, crate::specs::Scopes::opened, crate::specs::Redone::opened))]

ghost use Rattle.std.specs.Prelude.{◌≡◌, ◌&&◌};
ghost use Rattle.network.specs.Networks.{area_of};
ghost use Rattle.timetable.specs.Groups.{in_group};
ghost use Rattle.scope.specs.Scopes.{takes};

use network::Network;
use railway::sorts::{Area, Station};

pub mod redone; // which findings an edit has redone

#[derive(Clone, Copy, Debug, PartialEq, Eq, Hash)]
pub enum Scope {
    // All of them.
    Whole,
    // Those with both stations in the area.
    Within(Area),
    // Those with one station in each area.
    Between(Area, Area),
}

fn is_in(n: &Network, a: Area, s: Station) -> bool
    ensures { result ≡ in_group (area_of n.now) a.0 s }
{
    0 < a.0 && a.0 == n.group_of(s)
}

fn are_in(n: &Network, a: Area, s: Station, b: Area, p: Station) -> bool
    ensures { result ≡ (in_group (area_of n.now) a.0 s && in_group (area_of n.now) b.0 p) }
{
    is_in(n, a, s) && is_in(n, b, p)
}

pub fn is_taken(n: &Network, scope: Scope, s: Station, p: Station) -> bool
    ensures { result ≡ takes n.now scope s p }
{
    match scope {
        Scope::Whole => true,
        Scope::Within(a) => are_in(n, a, s, a, p),
        Scope::Between(a, b) => are_in(n, a, s, b, p) || are_in(n, b, s, a, p),
    }
}
