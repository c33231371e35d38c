// Relations in files: the reader and the numbers that are written.
#![tactic(auto, unfolding(timetable::specs::EditsFile::opened, timetable::specs::Formats::opened, fields::specs::between::Answers::opened))]

pub mod reading; // a relation read behind the entry before
pub mod row; // the numbers of a relation
