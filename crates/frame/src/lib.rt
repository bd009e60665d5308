// The first seven bytes of books, sheets and tries, and when an image is read: definitions in specs/, laws in proofs/.
#![tactic(auto)]
