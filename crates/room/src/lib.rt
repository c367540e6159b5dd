// Making room in the table.
#![tactic(auto)]

mod held;
mod pass;
mod room;
mod share;

pub use held::held_now;
pub use pass::{Evicted, Stop};
pub use room::{Made, make_room};
pub use share::write_dirty;
