// The lines of a sheet: its findings, and how many visits, relations and findings it has.
#![tactic(auto)]

pub mod totals; // the line of totals
pub mod whole; // the findings of a whole sheet
