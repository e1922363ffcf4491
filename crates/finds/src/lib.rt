// In a clean and fine sheet a full name is found exactly if it is declared, and then it is that declaration: proofs alone.
#![tactic(auto)]
