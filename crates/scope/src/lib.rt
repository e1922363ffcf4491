// Scopes of a sheet: a file or a message, and the way down to a message or an enum that it declares. A scope is a place in the lent sheet;
// nothing is copied, and names are compared as bytes.
#![tactic(auto)]

pub mod lookup;
