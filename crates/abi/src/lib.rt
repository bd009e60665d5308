// What C is told, and what it finds in what it lent: definitions in specs/.
#![tactic(auto)]
