// Laws of which steps a part accepts, and of one round of an advance. It has no functions; `specs/`
// and `proofs/` hold the laws, which the proofs of the crates above cite.
#![tactic(auto)]
