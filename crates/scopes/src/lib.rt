// The scopes at a path, as a definition with its laws: proofs alone. `cursor` walks through them.
#![tactic(auto)]
