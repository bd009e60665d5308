// Finding, name-at, prefix range and bucket heads: definitions in specs/, laws in proofs/.
#![tactic(auto)]
