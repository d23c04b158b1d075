// This crate holds the examples P1 to P12 of the specification, as definitions and a theorem, and no function: see specs/Examples.antt.
#![tactic(auto)]
