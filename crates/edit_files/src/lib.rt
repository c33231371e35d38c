// Edits in files, read with the number and place of a refusal: one by one, a whole file of them, and the input of
// `shift`.
#![tactic(auto)]

pub mod edit; // one edit of a file, and the cursor
pub mod list; // files of edits
pub mod input; // the input of `shift`: network, then edits
