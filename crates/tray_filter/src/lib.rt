// The filter beside a tray of reports: its bits counted for the screen, set and tested for a star, and made anew from reports.

#![tactic(auto)]

mod counting;
mod marking;

pub use counting::{Shown, bits};
pub use marking::{mark, passes, remake};
