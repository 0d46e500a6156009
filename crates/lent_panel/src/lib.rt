// Panels that are lent field by field, and what calls make of them: definitions and statements in specs/, proofs in proofs/.
#![tactic(auto)]
