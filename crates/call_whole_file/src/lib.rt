// The calls over the whole file. Each contract gives the answer, the growth state and every lent item at exit, refusals too, by the definitions
// of crate calls.

#![tactic(auto)]

mod growth;
mod verdicts;

pub use growth::{Step, grow, shrink, step_of};
pub use verdicts::check;
