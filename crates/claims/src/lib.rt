//! No code: what the other crates prove, stated again for a reader.
#![tactic(auto)]
