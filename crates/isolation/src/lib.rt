// Two runs, document 01, demand 3: definitions and theorems about the requests and the confinement test, and no code.
#![tactic(auto)]
