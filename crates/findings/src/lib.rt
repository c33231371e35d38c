// The lists of findings of sheets: of a whole timetable, of an area, of two areas. One builder forms them all, in their
// order.
#![tactic(auto)]

pub mod calls; // the calls
mod joint; // two sheets put together in one

// As many numbers as a list has at most: list_most of builder/specs/between/Builder.antt.
pub const MOST: usize = 16 * ((builder::RULES as usize - 1) * 24 * 24 * 4 + 6 * 4);
