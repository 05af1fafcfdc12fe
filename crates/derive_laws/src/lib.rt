// What is proved of the sets that deriving hands on: there is no code here, only theorems.
#![tactic(auto)]
