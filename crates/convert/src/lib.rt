// Books moved from one version to another: definitions in specs/, laws in proofs/.
#![tactic(auto)]
