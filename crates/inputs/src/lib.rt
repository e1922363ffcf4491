// What a program is given, once its text is read: the field that is due at a place, the words of a payload.
#![tactic(auto)]

pub mod due;
pub mod words;
