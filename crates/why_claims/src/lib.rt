// What is claimed of reasons. No code: specs/ says it, proofs/ proves it.
#![tactic(auto)]
