// Lists of calls on a ring, a table or a tree that is lent: statements in specs/, proofs in proofs/.
#![tactic(auto)]
