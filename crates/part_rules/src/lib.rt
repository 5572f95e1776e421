// What loading and the test of soundness ask of kinds, operands, magnitudes, ratios, sources, spans and
// components. Each answer is the machine's own definition of it.
#![tactic(auto)]

pub mod component;
pub mod kind;
pub mod operand;
pub mod port;
pub mod range;
pub mod ratio;
pub mod source;
mod span;
