// Two files compared: the first page and place at which they differ.

#![tactic(auto)]

mod search;

pub use search::{Spot, compare};
