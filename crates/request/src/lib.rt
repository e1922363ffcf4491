// What a request says, after protobuf-parse's model: option names, constants, and the readers that the steps walk them with. The readers
// take every byte string and test no characters: a request's names are tested once, with its form.
#![tactic(auto)]

pub mod constant;
pub mod heading;
pub mod name;
pub mod table;
