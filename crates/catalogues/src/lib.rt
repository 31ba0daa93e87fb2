// The program starfits without its reading and writing: a catalogue's lines collected and put out as a table, and a table's rows as lines.

#![tactic(auto)]

mod collecting;
mod entries;
mod listing;

pub use collecting::{Collected, Collection, collect, finish, start};
pub use listing::{begins_table, keep, list};
