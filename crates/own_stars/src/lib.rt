// The own stars of a page, which are homed there: found, taken from it, and entered one by one under another growth state.

#![tactic(auto)]

mod entering;
mod finding;
mod taking;

pub use entering::enter_own;
pub use finding::find_own;
pub use taking::take_own;
