// The plan of a stretch of pages: its stars as words of a lent list, gathered by home and settled page by page.

#![tactic(auto)]

mod gathering;
mod keys;
mod layout;
mod numbering;
mod outcome;
mod settling;

pub use gathering::{count_stars, gather};
pub use keys::gather_keys;
pub use layout::{place_all, plan, store_sources};
pub use numbering::gather_stars;
pub use outcome::Outcome;
pub use settling::{Settled, keep_all, settle_alone, settle_under};
