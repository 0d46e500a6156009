// Theorems only: what the printed lines of a log say of its run, and that the announcement comes. See specs/ for the statements.
#![tactic(auto)]
