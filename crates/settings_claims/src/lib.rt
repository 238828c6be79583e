// What is written to a store of settings is read back, and good settings have one encoding: the claims. No code.
#![tactic(auto)]
