// What all parts of a model in words reply when they are asked: a round, whether one is due, and whether one objects to
// a trial. Each public function's contract is an equation with a definition of `machine`, or of this crate's
// `specs/Trials.antt`.
#![tactic(auto)]

pub mod dues;
pub mod rounds;
pub mod trials;
