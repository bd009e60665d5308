// A history as a script of calls, and its run on two buffers: definitions in specs/, laws in proofs/.
#![tactic(auto)]
