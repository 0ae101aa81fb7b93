//! The fields that the programs work over. Nothing outside this crate knows a modulus.
#![tactic(auto)]

pub mod residue;
pub mod seventeen;
