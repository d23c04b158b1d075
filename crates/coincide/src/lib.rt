// This crate holds a theorem for each public function, that its contract allows one outcome, and no function: see proofs/Functions.antt.
#![tactic(auto)]
