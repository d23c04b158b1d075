// This crate holds the promises, as definitions and theorems, and no function: see specs/Promise.antt.
#![tactic(auto)]
