// What every call begins with: refusals 1 and 2, 1 and 16 of the growth record; and the test of the caller, for refusal 13.

#![tactic(auto)]

mod lending;
mod owning;
mod turning;

pub use lending::{all_fit, file_fits, guard};
pub use owning::may_alter;
pub use turning::{admit, at_rest, at_rest_after, out_of_turn, steps_valid, turn_away};
