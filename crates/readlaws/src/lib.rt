// What a text that is read leaves in the memory of a whole job, as laws: it fits, and the front of the memory is the job. No code.
#![tactic(auto)]
