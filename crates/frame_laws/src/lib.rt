// The tests of the first seven bytes: inner definitions in specs/, laws in proofs/.
#![tactic(auto)]
