// Reads a table's commands in turn, up to its End. Input is any bytes: what is not a table is refused
// with document 01's number and position.
#![tactic(auto)]

pub mod table;
mod turn;
