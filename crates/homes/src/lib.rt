// The homes of a page's numbers at once: every step over blocks of eight numbers, in lanes of 16 bits.

#![tactic(auto)]

mod blocks;
mod lanes;
mod page;
mod passes;
mod scalars;
mod stages;

pub use page::of_page;
