// Bytes stored one part behind the other: an inner definition in specs/, laws in proofs/.
#![tactic(auto)]
