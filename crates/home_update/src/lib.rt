// The homes under the next growth state and the one before, from the home under this one.

#![tactic(auto)]

mod growing;
mod items;
mod shrinking;

pub use growing::home_grown;
pub use items::{item_grown, item_shrunk};
