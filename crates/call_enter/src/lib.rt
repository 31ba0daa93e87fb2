// The calls that enter a star.

#![tactic(auto)]

mod entry;

pub use entry::{cascade, enter, enter_stopped};
