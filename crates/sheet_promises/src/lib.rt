// No code: that a sheet is exact stands in specs/Exact.antt, the proof in proofs/.
#![tactic(auto)]
