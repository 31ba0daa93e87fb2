// Carrying a file to the other multiplier: document 02 (viii). The contract gives the answer, the record and every lent item at exit, refusals
// too, by `carry_of` of specs/Carry.antt in crate calls.

#![tactic(auto)]

mod calling;
mod keys;
mod second;
mod stars;

pub use calling::carry;
