// A score played and printed: a line for each command, up to a bad byte, in one of two formats. The programs that print
// a rehearsal read their input and call this. Its contracts cite `specs/`.
#![tactic(auto)]

mod buffer;
pub mod format;
pub mod lines;
pub mod play;
pub mod print;
