// The meaning of one arrival and of lists of arrivals, and its first laws. No code: specs/ says it, proofs/ proves it.
#![tactic(auto)]
