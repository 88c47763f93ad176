// The twelve examples of document 01 as one theorem, proofs/Twelve.antt, and no code.
#![tactic(auto)]
