// No code: what a written file owes stands in specs/Files.antt, the proofs in proofs/.
#![tactic(auto)]
