// Theorems only: the concrete table of crate table is a state of the theory of crate relax.
#![tactic(auto)]
