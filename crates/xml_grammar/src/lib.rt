// No code: the productions stand in specs/Productions.antt, and the proofs that the automaton of reading goes over what they derive, and over nothing else, in proofs/.
#![tactic(auto)]
