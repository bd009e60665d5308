// Sibling groups of a trie by their keys: inner definitions in specs/, laws in proofs/.
#![tactic(auto)]
