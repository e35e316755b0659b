// No code: that each contract leaves one answer is stated in specs/UniqueEntries.antt and specs/UniqueParts.antt, the proofs stand in proofs/.
#![tactic(auto)]
