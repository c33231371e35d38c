// The numbers of files, one by one: read with the number and place of a refusal, compared with the entry before, and
// put into a buffer.
#![tactic(auto)]

pub mod field; // one number with its range, and rows of numbers
pub mod floor; // a number compared with its namesake in the entry before
pub mod put; // numbers put into a buffer
