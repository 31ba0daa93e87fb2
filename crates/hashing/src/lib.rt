// Where a star's home page is: the geometry of a linear hashing file with partial expansions, the growth step and its undoing.

#![tactic(auto)]

mod address;
mod groups;
mod limits;
mod moves;
mod ranks;
mod undoing;

pub use address::{chosen_last, home, inverse_of};
pub use groups::{expands, grown};
pub use limits::{growth_valid, parameters_valid};
pub use moves::{count_of, page_of, ranked};
pub use ranks::rank;
pub use undoing::{shrunk, ungrown};

// A file's parameters, with document 01's letters.
#[derive(Clone, Copy)]
pub struct Parameters {
    pub places: u32, // b, places of a page
    pub groups: u32, // N, first groups
    pub width: u32, // n0, first pages of a group
    pub step: u32, // s, step of a sweep
    pub bits: u32, // k, bits of a separator
    pub load: u32, // A, per cent
    pub pages: u32, // M
    pub multiplier: u32, // of the number generator: 16,807 or 48,271
}

// The growth state.
#[derive(Clone, Copy)]
pub struct Growth {
    pub expansions: u32, // e, partial expansions finished
    pub expanded: u32, // x, groups expanded in the present one
}

#[derive(Clone, Copy)]
pub struct Geometry {
    pub parameters: Parameters,
    pub growth: Growth,
}
