// Position words, and a page of the star file as one value of 32 places: load and search.

#![tactic(auto)]

pub mod page;
pub mod position;
