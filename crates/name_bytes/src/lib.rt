// No code: the characters of names and what their first bytes owe stand in specs/NameBytes.antt, the proofs in proofs/.
#![tactic(auto)]
