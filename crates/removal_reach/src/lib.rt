// Pages placed anew by the rule: a stretch of them over its own stars, and by a removal over its reach.

#![tactic(auto)]

mod changed;
mod held;
mod removal;
mod star;
mod stretch;

pub use held::remove_held;
pub use star::HeldStar;
pub use stretch::replace_stretch;
