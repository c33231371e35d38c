// The calls of document 01 for programs in C, Rust and Python, over numbers and lent bytes: a network, an edit, a list
// of edits and a timetable are the bytes of their files. `rt lib` in this crate's folder writes them to
// out/libstrakewhip.a under the names that they have here; include/strakewhip.h says what each one does.
#![tactic(auto)]

mod entering; // whether the buffers fit, and the network
mod asking; // a network read; the areas that an edit names
mod turns; // a network file of an earlier form turned
mod changes; // an edit, and a list of edits
mod sheets; // dividing and merging
mod lists; // findings
mod rechecks; // a list of findings after one edit
mod tables; // timetable files
mod journey; // the projection
mod count; // the tally
