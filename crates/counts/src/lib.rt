// How much a sheet or a request says: its declarations, its options and their parts, counted by walks over the lent bytes.
#![tactic(auto)]

pub mod declarations;
pub mod options;
