// Definitions and laws only: what memory that is lent for writing holds when it comes back.
#![tactic(auto)]
