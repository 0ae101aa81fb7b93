//! Division by x - a, the tower of Graeffe transforms, the lift and the list of roots.
#![tactic(auto)]

mod build;
mod climb;
mod coefficients;
mod divide;
mod found;
pub mod level;
pub mod lift;
pub mod list;
pub mod record;
mod tower;
mod trial;
mod verdict;
mod weigh;
