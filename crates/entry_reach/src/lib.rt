// The entry of a star: on its home page alone, by newcomers pushed through a run of pages that are the rule's, or over its reach, planned block
// after block.

#![tactic(auto)]

mod blocks;
mod newcomers;
mod onward;
mod run;
mod star;
mod stretch;

pub use blocks::{Reach, plan_entry};
pub use newcomers::lower_page;
pub use star::enter_star;
