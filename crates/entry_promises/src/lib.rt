// No code: the demands over the definitions of the entry points stand in specs/, their proofs in proofs/.
#![tactic(auto)]
