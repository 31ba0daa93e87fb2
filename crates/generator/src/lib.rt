// The number generator: the tables of its two multipliers, scrambled star numbers and their signatures.

#![tactic(auto)]

mod copies;
mod firsts;
mod signatures;
mod table;

pub use copies::{first_multipliers, multiplier_valid, multipliers};
pub use signatures::{below_top, residue, scrambled, signature_by};
