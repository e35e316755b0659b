// No code: what the table owes stands in specs/Tables.antt, the proofs in proofs/.
#![tactic(auto)]
