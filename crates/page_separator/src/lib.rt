// The signatures of the words that probe a page, their counts, and the page's separator by them.

#![tactic(auto)]

mod separating;
mod signatures;
mod words;

pub use separating::separator_under;
pub use signatures::{Factor, all_near, factor_for, first_factor, signature_kept, signature_of};
pub use words::{low_of, pack};
