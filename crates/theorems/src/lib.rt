// No code: the demands on composition stand in specs/Demands.antt, their proofs in proofs/.
#![tactic(auto)]
