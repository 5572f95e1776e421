// Laws that speak of no part and no model: tests, lists, loops over lists, numbers, signed numbers, marks,
// kinds. It has no functions; `specs/` holds the laws, which the proofs of the crates above cite.
#![tactic(auto)]
