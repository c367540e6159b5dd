// Entries by value: what a request does to one, and the tests that it passes.
#![tactic(auto)]

mod entry;
mod hold;
mod limits;

pub use entry::{
    changed_to, cleaned, is_listed, new_entry, older, protected_for, released, with_pin,
};
pub use hold::{forbids, is_held, is_read, is_written, joined, less_one};
pub use limits::{
    bad_address, bad_size, count_with, default_threshold, is_alone, is_lead, is_standby,
    too_few_words,
};
