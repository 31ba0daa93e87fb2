// The growth record that a caller keeps with a file, and the answers that come with it.
use crate::answers::Placed;
use hashing::Growth;

// "The growth record also holds whether one is open and the steps done": document 02 (xiii).
#[derive(Clone, Copy)]
pub struct GrowthRecord {
    pub state: Growth, // (e, x)
    pub growing: bool, // "open"
    pub steps: u32,
}

// The answer of a call that may change the growth record, with the record after it.
#[derive(Clone, Copy)]
pub struct Recorded {
    pub answer: Placed,
    pub growth: GrowthRecord,
}
