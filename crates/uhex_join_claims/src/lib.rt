// One file from two, read back: what the joined file stores for each board. No code: specs/ says it, proofs/ proves it.
#![tactic(auto)]
