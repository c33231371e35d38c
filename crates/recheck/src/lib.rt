// The update of a list of findings after one edit: what the edit leaves of the list, together with what is redone at
// the stations that it names and at those joined to them. It costs what it redoes.
#![tactic(auto)]

mod joined; // which stations lines join
mod marks; // what an edit has redone at each station
mod lists; // a lent list: whether it rises, and how much of it stays
mod weaving; // two lists as one
mod update; // the list after the edit, into a lent buffer
pub mod calls; // the calls
