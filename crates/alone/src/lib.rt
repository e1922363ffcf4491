// What an option of a request comes to does not depend on what stands around it: proofs alone.
#![tactic(auto)]
