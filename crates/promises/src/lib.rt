// Every promise on one page: the statement in specs/, the value that proves it in proofs/.
#![tactic(auto)]
