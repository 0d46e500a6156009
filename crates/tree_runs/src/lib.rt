// Whole runs of the tree: definitions and statements in specs/, their proofs in proofs/.
#![tactic(auto)]
