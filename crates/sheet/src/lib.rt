//! A closed tally and a job name as bytes, written and read.
//! A sheet has three sections, each after its count; counts and numbers take 4 bytes, the most significant first.
#![tactic(auto)]

mod check_name;
pub mod fault;
mod frame_section;
mod letter;
mod name_section;
pub mod read;
mod reader;
mod sums_section;
pub mod write;
mod writer;
