// No code: what a lean composition owes stands in specs/Leans.antt, the proofs in proofs/.
#![tactic(auto)]
