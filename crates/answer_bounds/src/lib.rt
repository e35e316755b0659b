// No code: that every answer is below 2^32 is stated over specs/Bounds.antt, and shown in proofs/.
#![tactic(auto)]
