// What a sheet says: the tags of 01's table, and the readers that its declarations are walked with. The readers take every byte string
// and test no characters: a sheet's names are tested once, with its form.
#![tactic(auto)]

pub mod declaration;
pub mod table;
