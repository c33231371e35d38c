// Lines of text, put into a lent buffer from a place on; what is past the buffer's end is dropped. A function that puts
// a text answers the place behind it.
#![tactic(auto)]

pub mod draft; // a text of a draft, handed over to a buffer
pub mod found; // the lines of findings
pub mod line; // a line of numbers
pub mod pairs; // the pairs of areas, by their index
pub mod refusal; // the line of a refusal
pub mod rows; // the lines of a projection's rows
mod words; // bytes, digits and words

// Further than any text: far of specs/between/Lines.antt.
pub const FAR: usize = 800000000;
