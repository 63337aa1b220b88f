// Laws of the integers, cited by other crates: no code.
#![tactic(auto)]
