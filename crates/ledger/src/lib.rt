// The ledger, histories on two buffers and demand 3, and the marked cases: definitions in specs/, laws in proofs/.
#![tactic(auto)]
