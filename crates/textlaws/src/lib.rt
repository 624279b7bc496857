// What job texts and reports are, as laws that speak of texts alone: which line is the first bad one, what a text lays in the columns,
// which numbers it can come to, how long its report is. No code.
#![tactic(auto)]
