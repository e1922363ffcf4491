// What the reading of option bytes promises, as statements: proofs alone.
#![tactic(auto)]
