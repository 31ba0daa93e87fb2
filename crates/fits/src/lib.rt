// The calls on FITS tables: document 02 (vi). Each contract gives the answer and every lent item at exit, refusals too, by the definitions of
// crate exchange.

#![tactic(auto)]

mod putting;
mod taking;

pub use putting::{Written, write_table, written_answer};
pub use taking::read_table;
