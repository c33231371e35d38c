// The timetable that a sheet holds, written as a timetable file; and how much it holds.
#![tactic(auto)]

pub mod calls; // the calls
