//! Rings, dual numbers, fields, and polynomials with their Graeffe transform. Every function is generic over the ring or field.
#![tactic(auto)]

pub mod code;
pub mod dual;
pub mod field;
pub mod graeffe;
pub mod power;
pub mod refusal;
pub mod ring;
