// The call that removes a star.

#![tactic(auto)]

mod removal;

pub use removal::{remove, remove_stopped};
