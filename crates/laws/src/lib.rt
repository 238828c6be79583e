// Sets of numbers, lists by index and numbers as bytes: definitions and laws alone.
#![tactic(auto)]
