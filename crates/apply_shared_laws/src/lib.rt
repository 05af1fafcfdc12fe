// What is proved of applying a conjunct twice: there is no code here, only definitions and theorems.
#![tactic(auto)]
