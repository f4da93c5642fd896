// What holds of every list of stage calls of a machine that keeps the laws of specs/Laws.antt: definitions and proofs, no function.
#![tactic(auto)]
