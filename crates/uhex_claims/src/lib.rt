// What is claimed of one line of Universal Hex and of lists of lines. No code: specs/ says it, proofs/ proves it.
#![tactic(auto)]
