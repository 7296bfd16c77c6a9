// What a step, a run and the argument question are, and the laws of them: no code. The definitions stand in specs/, the laws in proofs/.
#![tactic(auto)]
