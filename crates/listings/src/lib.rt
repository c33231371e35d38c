// What the programs print, as definitions: lines of decimal numbers, and what shift prints of its input. No code.
#![tactic(auto)]
