// Demand 3: the end of every list of a valid file's blocks. No code: specs/ says it, proofs/ proves it.
#![tactic(auto)]
