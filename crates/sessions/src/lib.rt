// The sessions of document 01 with known ends, on both lands: no code.
#![tactic(auto)]
