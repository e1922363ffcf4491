// Proofs alone: what the two positions of a refusal say, of a request and of a query's name.
#![tactic(auto)]
