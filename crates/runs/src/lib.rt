// Two runs of the calls that the firmware links, document 01, demand 3: a definition and a theorem about them, and no code.
#![tactic(auto)]
