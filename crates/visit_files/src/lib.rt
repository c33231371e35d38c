// Visits in files: the reader and the numbers that are written.
#![tactic(auto, unfolding(crate::specs::between::Answers::opened, timetable::specs::TimetableFile::opened, timetable::specs::FileForms::opened, timetable::specs::Formats::opened, fields::specs::between::Answers::opened))]

pub mod visit; // a visit entry read behind the entry before
pub mod row; // the numbers of a visit
