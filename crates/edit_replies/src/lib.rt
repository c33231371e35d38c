// What the library's calls of an edit answer, once a network is read.
#![tactic(auto)]

mod reading; // the edit's file
pub mod naming; // the areas that an edit names
pub mod changes; // an edit on a division, and on a sheet
pub mod rechecks; // a list of findings after an edit
pub mod count; // the tally
