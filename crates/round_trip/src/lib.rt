// No code: that what was printed is read back, and what the two forms of a text have to do with each other, stands in specs/, the proofs in proofs/.
#![tactic(auto)]
