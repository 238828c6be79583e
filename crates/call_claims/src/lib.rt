// What is claimed of lists of calls from C. No code: specs/ says it, proofs/ proves it.
#![tactic(auto)]
