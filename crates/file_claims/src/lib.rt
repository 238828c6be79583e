// The claims about files that are made and delivered: no code.
#![tactic(auto)]
