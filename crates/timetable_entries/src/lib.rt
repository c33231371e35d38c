// The entries of timetable files, read into a lent sheet.
#![tactic(auto)]

mod enter; // an entry tested for 7 and 12 and put into a sheet
mod read; // the entries of a file
pub mod rest; // a timetable from a place of a file to its end
