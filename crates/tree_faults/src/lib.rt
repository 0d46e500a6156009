// The first fault in the text of a tree: statements in specs/, proofs in proofs/.
#![tactic(auto)]
