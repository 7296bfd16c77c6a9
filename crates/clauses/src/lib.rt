// The clause file of a book: what it says. The definitions stand in specs/, what they give in proofs/; the crates above lay its bytes.
#![tactic(auto)]
