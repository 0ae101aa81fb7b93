//! Tallies of part codes, kept as power sums in a finite field: frames, open and closed tallies, their logs, and comparing.
#![tactic(auto)]

pub mod call;
pub mod closed;
pub mod frame;
pub mod open;
pub mod sums;
