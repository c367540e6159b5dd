// The requests that send a list or take one: flush, sync and take.
//
// Flush and sync do the work of a request that is not refused. Take has its tests with it, since they find the rows that its work
// needs.
#![tactic(auto)]

pub mod flush;
mod number;
pub mod sync;
pub mod take;
