// What the program `inspect` prints, in parts, made from the bytes of its input.
#![tactic(auto)]

pub mod parts; // the input, and each part by its index
mod written; // whether a timetable is written as it was read
