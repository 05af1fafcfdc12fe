// Laws of Bool, of numbers and of lists that several crates need. This crate has no code.
#![tactic(auto)]
