// No code: what a chain of views owes stands in specs/Chains.antt, the proofs in proofs/.
#![tactic(auto)]
