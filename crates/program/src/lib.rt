// The program's command lines, how it runs, and what any input prints: definitions in specs/, laws in proofs/.
#![tactic(auto)]
