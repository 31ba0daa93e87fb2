// The rows of a table placed on the pages of a file: gathered by home, planned, stored. Nothing is written unless all of them fit.

#![tactic(auto)]

mod columns;
mod gathered;
mod stored;

pub use stored::place_rows;
