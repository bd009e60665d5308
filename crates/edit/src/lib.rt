// Empty, set and withdraw: definitions in specs/, laws in proofs/.
#![tactic(auto)]
