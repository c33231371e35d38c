// Network files, read with the number and place of a refusal.
#![tactic(auto)]

mod faults; // the first fault of some entries
mod closures; // closures of lines
pub mod draft; // what a network lists, before its lines are tested and the file's end is looked at
pub mod reading; // network files read
