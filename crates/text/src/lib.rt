//! Numbers in lines of text, elements of a field written by their codes, and bytes in hexadecimal digits.
#![tactic(auto)]

pub mod read;
#[cfg(test)]
mod tests;
pub mod write;
