// Theorems only: that demand 3 speaks of something. See specs/ for the statements.
#![tactic(auto)]
