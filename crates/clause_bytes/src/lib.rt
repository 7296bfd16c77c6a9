// Clauses as bytes: short clauses, and the clauses that tie a whole to its parts, laid onto lent buffers.
#![tactic(auto)]

pub mod gathering;
mod literals;
pub mod parts;
pub mod writing;
