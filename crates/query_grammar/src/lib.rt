// No code: the grammar of queries and what reading owes to it stand in specs/, the proofs in proofs/.
#![tactic(auto)]
