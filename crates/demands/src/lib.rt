// What is promised of the calls over whole lists of edits, to the byte. No code.
#![tactic(auto)]
