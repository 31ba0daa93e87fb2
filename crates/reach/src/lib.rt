// Which pages a call re-places: where a stretch of pages ends, and the survey of its pages.

#![tactic(auto)]

mod ends;
mod surveying;

pub use ends::stretch_end;
pub use surveying::survey_pages;
