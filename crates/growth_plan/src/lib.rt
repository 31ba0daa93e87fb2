// Growth by one page and its undoing: in place, or all pages planned anew; and a growth done in steps, a page at a time.

#![tactic(auto)]

mod growth;
mod planning;
mod steps;

pub use growth::regrow;
pub use steps::{accept_growth, step_page};
