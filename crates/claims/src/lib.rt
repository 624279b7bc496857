// What is claimed of the call over lent columns, in specs/Claims.antt, and of the calls for C, in specs/WholeJobs.antt.
// proofs/Held.antt and proofs/WholeJobsHeld.antt prove each statement.
#![tactic(auto)]
