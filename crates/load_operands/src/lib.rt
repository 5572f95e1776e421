// The operands of a table's commands, read from bytes, and the refusals that follow from them.
#![tactic(auto)]

pub mod cursor;
pub mod operands;
pub mod refusal;
pub mod score;
