// The rules of document 01, "Findings", and of document 02, W1, as tests of visits by value, as the definitions of
// timetable/specs/Rules.antt say. No page is read here: crate page_rules looks the visits up.
#![tactic(auto, unfolding(timetable::specs::Visits::leaves, timetable::specs::Rules::opened, crate::specs::between::Parts::opened))]

pub mod stays; // rules 1, 2, 3 and 5: one visit, or two; of rule 4 the tests of two visits
pub mod trains; // rules 6, 9 and 10: trains on one line, or at the two ends of a link
pub mod closed; // rule 11: closures
pub mod clock; // times as wider numbers, so that sums do not overflow
