// The page that the separators name for a number, the homes of items, and the soundness of a page and of a stretch of pages.

#![tactic(auto)]

mod probing;
mod star_homes;
mod stretches;
mod testing;

pub use probing::named_from;
pub use star_homes::find_homes;
pub use stretches::survey;
pub use testing::page_sound;
