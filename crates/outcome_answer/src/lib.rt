// What calls that place stars end with: the outcome told as an answer, for a growth or shrinking with the state that it leaves, and the entry
// of a held star.

#![tactic(auto)]

mod again;
mod growing;
mod outcome;

pub use again::entered_again;
pub use growing::{grown_by, unmoved};
pub use outcome::placed_from;
