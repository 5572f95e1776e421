// Laws of what is printed: that the lines of a rehearsal never run out of turns or places, and that sheet lines have
// their columns and read back. It has no functions; `specs/` holds the laws, which the proofs of the crates above cite.
#![tactic(auto)]
