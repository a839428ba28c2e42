//! Words and bytes: masks on a word, little-endian numbers in a lent slice, parts of a slice
//! compared and copied.
#![tactic(auto)]

pub mod bits;
pub mod bytes;
pub mod parts;
