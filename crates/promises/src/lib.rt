// The promises of the resolver, as statements: proofs alone.
#![tactic(auto)]
