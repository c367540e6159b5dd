// What the tests of requests ask of a good table: the entry at an address, and a row for a new entry.
#![tactic(auto)]

pub mod found;
pub mod full;
