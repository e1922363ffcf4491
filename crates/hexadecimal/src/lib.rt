// What a program is given, before a word of it is printed: hexadecimal text.
#![tactic(auto)]

pub mod digits;
