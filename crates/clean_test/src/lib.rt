// Whether sound pages are the rule's: the first of them whose separator could be one greater.

#![tactic(auto)]

mod counts;

pub use counts::first_raisable;
