// The three demands, as statements in specs/ and proofs in proofs/. No code of its own.
#![tactic(auto)]
