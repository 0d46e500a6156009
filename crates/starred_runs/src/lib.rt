// Theorems only: document 01's rows and starred runs, one table computed over the definitions. See specs/ for the table.
#![tactic(auto)]
