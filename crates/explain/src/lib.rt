// A request done and explained: the reason of each order, and the cause and bound of a change of the maximum.
#![tactic(auto)]

mod explaining;
mod naming;

pub use explaining::{Explained, explain};
