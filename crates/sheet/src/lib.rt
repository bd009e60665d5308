// The sheet image, build and list: definitions in specs/, laws in proofs/.
#![tactic(auto)]
