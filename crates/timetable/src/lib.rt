// What document 01 says of a timetable, as definitions that compute (specs/), with its examples as one computed table.
// This file has the values that the calls answer with.
#![tactic(auto)]

use railway::sorts::Station;

// "An answer is a refusal number or 0, and the count of visits removed."
#[derive(Clone, Copy, Debug, PartialEq, Eq, Hash)]
pub struct Answer {
    pub refusal: u8,
    pub removed: u8,
}

// "Each is four numbers: station, rule, first, second (0 if unused)"
#[derive(Clone, Copy, Debug, PartialEq, Eq, Hash)]
pub struct Finding {
    pub station: Station,
    pub rule: u8,
    pub first: u16,
    pub second: u16,
}

// "Each visit's row is station, expected arrival, expected departure and lateness"
#[derive(Clone, Copy, Debug, PartialEq, Eq, Hash)]
pub struct Row {
    pub station: Station,
    pub arrival: u32,
    pub departure: u32,
    pub lateness: i32,
}

// "one small tally record which each edit raises: accepted, refused, added, removed"
#[derive(Clone, Copy, Debug, PartialEq, Eq, Hash)]
pub struct Tally {
    pub accepted: u32,
    pub refused: u32,
    pub added: u32,
    pub removed: u32,
}

// The forms of a network file, by what a line's row has; a later one is one more case.
#[derive(Clone, Copy, Debug, PartialEq, Eq, Hash)]
pub enum NetworkForm {
    // W1's: one least running time.
    OneTime,
    // The newest: two, of passenger trains and of freight.
    TwoTimes,
}

// The forms of timetable files and edits files; a later one is one more case.
#[derive(Clone, Copy, Debug, PartialEq, Eq, Hash)]
pub enum FileForm {
    // Document 01's: a visit has no stop mark, a report no minute.
    Earlier,
    // The newest: the mark stands after the track, the minute behind the time.
    Newest,
}

// What only the whole of a file shows, by document 01's number and the place of its entry's first byte; number 0 where
// there is none.
#[derive(Clone, Copy, Debug, PartialEq, Eq, Hash)]
pub struct Fault {
    pub number: u8,
    pub place: usize,
}
