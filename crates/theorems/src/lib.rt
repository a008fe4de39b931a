// The theorems that a reader holds against the demands stand in proofs/Demands.antt; this crate has no code of its own.
#![tactic(auto)]
