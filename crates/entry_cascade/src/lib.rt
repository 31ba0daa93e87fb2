// An entry that pushes stars from page to page through one page value, from the page that the separators name upward.

#![tactic(auto)]

mod arriving;
mod entry;
mod filling;
mod pushing;

pub use entry::cascade;
pub use pushing::push;
