// Laws of the definitions of charging and model. No code.
#![tactic(auto)]
