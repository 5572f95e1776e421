// One part at a point: the arithmetic of signals, squares and pulses, a part's output, and what a step
// changes of a part. Each function's contract is an equation with a definition of `machine`.
#![tactic(auto)]

mod arithmetic;
pub mod change;
pub mod output;
pub mod wave;
