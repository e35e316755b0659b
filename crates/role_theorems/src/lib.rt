// No code: what roles owe stands in specs/Gateway.antt, the proofs in proofs/.
#![tactic(auto)]
