// The rules in turn over lent columns, and what is left of them when they are settled: definitions and laws. No code.
#![tactic(auto)]
