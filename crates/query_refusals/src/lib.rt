// No code: which texts reading refuses, and where, stands in specs/Refusals.antt, the proofs in proofs/.
#![tactic(auto)]
