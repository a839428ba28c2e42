//! No code: the theory of a reader that takes a trace in pieces, for any format of images.
#![tactic(auto)]
