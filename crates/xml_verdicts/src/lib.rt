// No code: what reading owes to the productions stands in specs/Owed.antt, the proofs in proofs/.
#![tactic(auto)]
