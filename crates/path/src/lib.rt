// Names of protobuf: paths, parents and joining.
// The modules are those of protobuf-parse; a path is a slice of its text, and an owned path bytes in a lent buffer.
#![tactic(auto)]

pub mod protobuf_abs_path;
pub mod protobuf_path;
pub mod protobuf_rel_path;
