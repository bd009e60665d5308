// Two books merged into one (document 02, request a): definitions in specs/, laws in proofs/.
#![tactic(auto)]
