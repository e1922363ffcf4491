// What all programs share: standard input as the fields that it holds, and the lines that are printed.
#![tactic(auto)]

pub mod input;
pub mod output;
