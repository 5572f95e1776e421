// Laws of the order of parts: that it is complete where there is no loop, and what filling a point's
// outputs in that order comes to. It has no functions; `specs/` holds the laws.
#![tactic(auto)]
