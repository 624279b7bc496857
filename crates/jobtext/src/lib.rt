// The job text of document 01: its grammar, what reading it gives, and the job that it stands for. No code.
#![tactic(auto)]
