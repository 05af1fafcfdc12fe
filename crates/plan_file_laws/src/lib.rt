// What is proved of reading a plan file, beyond its contract: there is no code here, only definitions and theorems.
#![tactic(auto)]
