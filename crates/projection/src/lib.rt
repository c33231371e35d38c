// The projection: the expected times of a train from one visit on.
#![tactic(auto)]

pub mod calls; // the call
mod journey; // the rows along answered links, written one behind the other
mod times; // the expected times of one visit, by value
