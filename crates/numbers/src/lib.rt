// The structs of numbers that C and Rust give and get: what those given stand for, and what is answered as numbers.
//
//     raw        the structs
//     setting    the settings that numbers stand for
//     request    the request that numbers stand for
//     answer     an answer as numbers
//     explained  an answer with the change of the maximum, as numbers
//     verdict    a verdict as numbers
//     figures    a report as numbers
//     writing    what writing a message came to, as numbers
//
// Kinds, causes, bounds and refusals are numbers here and no enums: the C interface has them so.
#![tactic(auto)]

pub mod answer;
pub mod explained;
pub mod figures;
pub mod raw;
pub mod request;
pub mod setting;
pub mod verdict;
pub mod writing;
