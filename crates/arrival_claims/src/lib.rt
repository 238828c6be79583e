// The claims about one arrival, over its meaning in `arrival`. No code: specs/ says them, proofs/ proves them.
#![tactic(auto)]
