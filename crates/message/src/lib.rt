// A numbered list as a message: its number, one byte of it, a whole one read, and one written.
#![tactic(auto)]

pub mod feed;
pub mod number;
pub mod read;
pub mod write;
