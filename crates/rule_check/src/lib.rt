// The work below the call `check`: the first unsound page, or the first page and place that differ from the rule over the whole file.

#![tactic(auto)]

mod telling;

pub use telling::{Verdict, check_file};
