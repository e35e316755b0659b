// No code: the demands on files over calls that met their contracts stand in specs/FileCalls.antt, their proofs in proofs/.
#![tactic(auto)]
