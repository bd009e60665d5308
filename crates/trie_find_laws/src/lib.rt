// The search in a trie, best first: inner definitions in specs/, laws in proofs/.
#![tactic(auto)]
