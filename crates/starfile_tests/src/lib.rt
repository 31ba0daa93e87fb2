// For the Rust tests alone, which call the library of heatherplane for all else: two functions below the calls, and crate growth_record's.

#![tactic(auto)]

mod lent_record;
mod record_calls;
mod replies;

pub use record_calls::{
    sft_record_grow, sft_record_open_growth, sft_record_shrink, sft_record_step_growth,
};
pub use replies::{FileParameters, Record, Reply};

// Xj of a number; 0 if there is no such multiplier or its table has no j-th entry.
#[unsafe(no_mangle)]
pub extern "C" fn sft_scrambled(multiplier: u32, j: usize, number: u32) -> u32 {
    if j < 1 || j > 2049 {
        return 0;
    }
    if !generator::multiplier_valid(multiplier) {
        return 0;
    }
    generator::scrambled(multiplier, j, number)
}

// The rank of a group among count groups; 0 if there is no such group or step.
#[unsafe(no_mangle)]
pub extern "C" fn sft_rank(step: u32, count: u32, group: u32) -> u32 {
    if step < 1 || step > 256 || count > 1024 || group > 1023 || group >= count {
        return 0;
    }
    hashing::rank(step as u16, count as u16, group as u16) as u32
}
