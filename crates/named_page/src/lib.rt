// The page that the separators name for a number, which calls about one star begin with.

#![tactic(auto)]

mod finding;

pub use finding::{Named, find, find_kept};
