// The candidates of a name in a scope. The module is protobuf-parse's, as those of `path` are.
#![tactic(auto)]

pub mod protobuf_path;
