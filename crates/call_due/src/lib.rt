// The call Due: the pages in use and the stars counted.

#![tactic(auto)]

mod load;

pub use load::due;
