// What is written reads back, and only the file that is written reads to its value: specs/RoundTrips.antt says what,
// proofs/ says why. No code.
#![tactic(auto)]
