// The worked examples that 01 marks P. No code: specs/ says them, proofs/ computes them.
#![tactic(auto)]
