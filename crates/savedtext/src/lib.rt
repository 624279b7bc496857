// The text that a lent job is saved as, which jobs have one text, and the laws of both. No code.
#![tactic(auto)]
