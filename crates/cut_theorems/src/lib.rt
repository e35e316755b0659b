// No code: what a yes means, and which tables get one, stands in specs/Cuts.antt, the proofs in proofs/.
#![tactic(auto)]
