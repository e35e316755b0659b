// No code: what a sheet owes stands in specs/Sheets.antt, the proofs in proofs/.
#![tactic(auto)]
