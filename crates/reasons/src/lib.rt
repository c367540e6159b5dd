// The reasons of a request's orders, and the cause and bound of a change of the maximum, by value.
#![tactic(auto)]

pub mod bound;
pub mod change;
pub mod runs;
