// The words of waiting stars in order, so that those of one star stand side by side: compared, and all but one dropped.

#![tactic(auto)]

mod agreement;
mod groups;
mod removal;

pub use agreement::all_agree;
pub use groups::{mark_ends, sort_groups};
pub use removal::drop_repeated;
