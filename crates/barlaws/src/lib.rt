// Where the bar of a region comes from, in words of a job and of its marks alone (specs/Origin.antt), proved of every run of the
// definition and of the bar lines of a report. No code.
#![tactic(auto)]
