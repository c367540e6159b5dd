// The types of the cache: entries, requests, orders, answers and the report.
//
// What each request answers, leaves and orders is defined over these types in specs/.
#![tactic(auto)]

pub mod answer;
pub mod entry;
pub mod order;
pub mod report;
pub mod request;
