// Witnesses for demand 3, computed: that it is no empty claim, what it covers, and that its exception is needed; and no code.
#![tactic(auto)]
