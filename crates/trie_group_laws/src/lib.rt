// Which sibling groups are those of a set of suffixes: definitions and laws only.
#![tactic(auto)]
