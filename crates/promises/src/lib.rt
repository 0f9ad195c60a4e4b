// The demands as theorems over the definitions that the contracts name: specs/ states them, proofs/ proves them. No code.
#![tactic(auto)]
