// No code: the size, the nesting and the height of a composition stand in specs/Measures.antt, the proofs in proofs/.
#![tactic(auto)]
