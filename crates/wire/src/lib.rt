// The wire forms of protobuf's encoding document: tags, zigzag and widths, fixed numbers.
#![tactic(auto)]

pub mod fixed;
pub mod numbers;
pub mod tag;
