// What is claimed of a report over traces. No code: specs/ says it, proofs/ proves it.
#![tactic(auto)]
