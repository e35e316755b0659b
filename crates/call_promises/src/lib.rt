// No code: the demands over calls that met their contracts stand in specs/, their proofs in proofs/.
#![tactic(auto)]
