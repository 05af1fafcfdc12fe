// That the plan which the simplifier hands back keeps the rules. This crate has no code.
#![tactic(auto)]
