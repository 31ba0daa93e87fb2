// The program starline without its reading and writing: the star file that it keeps, and its answers to commands, lines and blocks of input.

#![tactic(auto)]

mod blocks;
mod commands;

pub use blocks::{Answered, Session, answer_block, finish, start};
pub use commands::StarFile;
