// What an entry or a removal does to the file: decided first, from what is stored, then carried out by page stores.

#![tactic(auto)]

mod carried;
mod chosen;
mod edits;
mod stretch;

pub use carried::carry_out;
pub use chosen::{Decision, Newcomer, outcome_of};
