// Sheets: the page of a station in a sheet; whether a page, a sheet and a division are good.
#![tactic(auto)]

pub mod station_page; // a station's page of a sheet
pub mod test; // whether a page, a sheet and a division are good
