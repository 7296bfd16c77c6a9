// Which texts are well-formed answers, and what comes of each: definitions in specs/, laws in proofs/. No code of its own.
#![tactic(auto)]
