// The search rule of 01, its theorems and 01's examples: innermost path first, found first and tested second. `extensions` has the code.
#![tactic(auto)]

pub mod extension;
