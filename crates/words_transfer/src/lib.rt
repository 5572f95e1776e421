// A model by value put into the words of a table and of a state, and one that takes the state of words.
#![tactic(auto)]

pub mod intake;
pub mod recall;
