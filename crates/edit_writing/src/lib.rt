// Edits written to files, one or a whole list.
#![tactic(auto, unfolding(timetable::specs::EditsFile::opened, timetable::specs::FileForms::opened))]

pub mod writing; // the calls
