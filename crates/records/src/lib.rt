// Bytes of a page's records: reading and writing numbers, visits and relations, and making and closing room for one
// record of 16 bytes.
#![tactic(auto)]

pub mod bytes; // bytes, numbers of two bytes, and what is done to a part whatever its bytes mean
pub mod record; // visits and relations as records
