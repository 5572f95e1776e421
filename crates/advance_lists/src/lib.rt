// Document 01's third demand, the claim about a whole list of calls: proved of every chain of calls from
// a model that was loaded, or is sound, and refuted of two imitations. It has no functions; `specs/`
// and `proofs/` hold the laws.
#![tactic(auto)]
