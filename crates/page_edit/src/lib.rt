// A page altered in place: a star put in at its place, or taken out. The stars behind it move by one place, and no other page is touched.

#![tactic(auto)]

mod items;
mod room;
mod star;

pub use items::{put_number, take_number};
pub use room::takes_alone;
pub use star::{put_star, take_star};
