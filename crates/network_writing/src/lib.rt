// Networks written to files.
#![tactic(auto)]

pub mod writing; // the call
