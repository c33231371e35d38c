// An edit taken apart: all that the calls ask of its kind, in one place for each thing that a new kind would bring.
#![tactic(auto)]

pub mod shape; // its stations, the visits that it adds and removes
pub mod known; // what the network has to know
pub mod early; // what refuses it before any sheet is looked at
