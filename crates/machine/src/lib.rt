// What edits on a sheet and on a division answer and leave (specs/), and that these are the central machine's (proofs/).
// No code.
#![tactic(auto)]
