// Laws of the search for a step: that it ends, what it finds, in how many rounds and revisions, and what
// follows for a call of advance. It has no functions; `specs/` and `proofs/` hold the laws, which the
// proofs of the crates above cite.
#![tactic(auto)]
