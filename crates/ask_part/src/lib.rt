// What one part replies when it is asked for a step: whether it is due, the longest step of at most h
// that it accepts, and whether it objects to a trial. Each public function's contract is an equation
// with a definition of `machine`.
#![tactic(auto)]

mod drive_spans;
pub mod due;
pub mod longest;
pub mod objection;
