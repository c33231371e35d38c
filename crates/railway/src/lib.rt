// The sorts and values of document 01, "The railway and its numbers": what an edit carries, and the tests of its
// ranges.
#![tactic(auto, unfolding(crate::specs::Edits::opened, crate::specs::Relations::opened))]

pub mod sorts; // stations, trains, tracks, lines, areas
pub mod minute; // times
pub mod visit; // visits and their links
pub mod relation; // connections, disconnections, dependencies, and their order
pub mod edit; // the eleven edits
