// The answers of calls, written as rows of eight numbers.

#![tactic(auto)]

mod writing;

pub use writing::write;
