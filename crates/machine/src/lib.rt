// The machine's declared types, by value, with the functions of its time. The folder `specs/` beside
// this one holds document 01's machine as definitions over these types; every promise cites them.
#![tactic(auto)]

pub mod model;
pub mod part;
pub mod signal;
pub mod time;
