// Histories of calls on one file: what holds of every one of them is stated in specs/ and proved in proofs/. There is no code.

#![tactic(auto)]
