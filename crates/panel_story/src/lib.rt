// The packing station at work, with no code: one story, computed over the definitions, in specs/ and proofs/.
#![tactic(auto)]
