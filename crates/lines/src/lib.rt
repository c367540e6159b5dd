// Lines of input: `insert ADDRESS SIZE`.
#![tactic(auto)]

mod line;
mod number;

pub use line::{Insert, line_end, read_line};
pub use number::{Number, number_at};
