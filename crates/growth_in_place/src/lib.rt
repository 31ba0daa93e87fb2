// A growth or shrinking that moves only the stars that must: those of the new page one by one, or block by block.

#![tactic(auto)]

mod joining;
mod moving;
mod renewing;
mod stars;
mod tallying;
mod walking;

pub use renewing::replace_blocks;
pub use stars::{is_spacious, move_stars};
