// Timetable files, alone or behind a network, read into a lent sheet.
#![tactic(auto)]

pub mod calls; // a timetable file read
pub mod input; // the input of `inspect`: network, then timetable
