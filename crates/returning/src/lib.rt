// That the entry points return, as a statement in specs/ and its proof in proofs/. No code of its own.
#![tactic(auto)]
