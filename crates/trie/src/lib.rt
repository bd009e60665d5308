// The trie image, trie writing and completion from a trie: definitions in specs/, laws in proofs/.
#![tactic(auto)]
