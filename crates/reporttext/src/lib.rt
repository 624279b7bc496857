// Definitions and laws only: the text of a report, and the longest one.
#![tactic(auto)]
