// What holds of every row and every plan: the theorems of rows and truth. This crate has no code.
#![tactic(auto)]
