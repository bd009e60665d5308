// A page for the wall (document 02, request e): definitions in specs/, laws in proofs/.
#![tactic(auto)]
