// The cache on a table that the host lends: open, step, ask and report; and the message of a list.
//
// Each takes any words. A table is judged before anything else is done with it, but for the old
// words of one that is opened.
#![tactic(auto)]

mod asking;
mod opening;
mod reporting;
mod stepping;
mod work;

pub use asking::ask;
pub use message::write::write_message;
pub use opening::open;
pub use reporting::report;
pub use stepping::{Worked, step, step_judged, work_judged};
