// Demand 3 and its companions, proved of the definitions: specs/Statements.antt says what, proofs/ says why. No code.
#![tactic(auto)]
