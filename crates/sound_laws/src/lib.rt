// Soundness tied to loading: the fresh model of a table that fits is sound, a step keeps a model sound,
// and the tables that fit are those that loading accepts. It has no functions; `specs/` holds the laws,
// which the proofs of the crates above cite.
#![tactic(auto)]
