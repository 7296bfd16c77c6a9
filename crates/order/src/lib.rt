// The order: what it is, and what is proved of it. It is compared in comparing, and a book is held to it in clearing.
#![tactic(auto)]
