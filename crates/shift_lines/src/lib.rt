// What the program `shift` prints, made from the bytes of its input.
#![tactic(auto)]

mod answers; // the lines of the edits of a file, and the tally
pub mod listing; // all lines
