// What each call answers and leaves, by the definitions of specs/Calls.antt and specs/Records.antt; the laws about them are in proofs/.

#![tactic(auto)]

pub mod answers;
pub mod records;
