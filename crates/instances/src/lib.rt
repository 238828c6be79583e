// Examples of comments and of files in RAM, and files that meet the hypotheses of arrival's theorems. No code: specs/ says it, proofs/ proves it.
#![tactic(auto)]
