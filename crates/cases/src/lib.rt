// The eleven cases of docs/PROMISES.md. There is no code here: the table stands in specs/, its proof in proofs/.
#![tactic(auto)]
